// Text that is written behind a closed header gate.
ghost use Rattle.std.specs.Prelude.{◌≡◌, ℕ, ◌+◌, ◌^◌, ◌≤◌, List, ◌++◌, length, take, IfOk, OnOk};
ghost use Rattle.hs_host.specs.Files.{of, IsOpen};
ghost use Rattle.hs_host.specs.Moments.{disk_of};
ghost use Rattle.hs_host.specs.Used.{Told, ChangesFile};
ghost use Rattle.hs_gate.specs.Crash.{BeginsWith};
ghost use Rattle.hs_gate.specs.Faults.{FailsWith};
ghost use Rattle.hs_gate.specs.Groups.{group, spelled};
ghost use Rattle.hs_anew.specs.Staging.{IsStaged, head_before};

use crate::stand::Stand;
use hs_gate::GateFault;
use hs_host::{FileKind, Host, write};
use std::alloc::Global;

/// The place of the first group's gate.
pub const FIRST_PLACE: u64 = 10;

/// Writes more of the text, from the place up to which the file has it, and answers the place behind.
pub fn stage<H: Host>(host: &mut H, file: FileKind, at: u64, bytes: &[u8]) -> Result<u64, GateFault>
    requires opened { IsOpen (H.standing host.old) }
    requires staged { Told H.Source H.Host.own host.old → (text : List ℕ) × IsStaged (disk_of (H.history host.old).now file) (of (H.files host.old) file) at text }
    ensures changes { ChangesFile H.Source H.Host.own file (BeginsWith 2 (of (H.files host.old) file)) host.old host.new }
    ensures fails { FailsWith (H.disk_faults host.old) (H.disk_faults host.new) result }
    ensures end { IfOk result (λ end. end ≡ at + length bytes.now) }
    ensures room { IfOk result (λ end. end ≤ 2 ^ 62) }
    ensures front { Told H.Source H.Host.own host.old → OnOk result (take 2 (of (H.files host.new) file) ≡ take 2 (of (H.files host.old) file)) }
    ensures staged { Told H.Source H.Host.own host.old → (text : List ℕ) → IsStaged (disk_of (H.history host.old).now file) (of (H.files host.old) file) at text
        → IfOk result (λ end. IsStaged (disk_of (H.history host.new).now file) (of (H.files host.new) file) end (text ++ bytes.now)) }
{
    write(host, file, at, bytes)?;
    Ok(at + bytes.len() as u64)
}

/// Writes a payload piece by piece, each of which takes the place of the one before in `piece`.
fn stage_payload<H: Host, S: Stand>(
    host: &mut H,
    file: FileKind,
    first: u64,
    piece: &mut Vec<u8>,
    store: &mut S,
) -> Result<u64, GateFault>
    requires opened { IsOpen (H.standing host.old) }
    requires room { first ≤ 2 ^ 62 }
    requires staged { Told H.Source H.Host.own host.old → (text : List ℕ) × IsStaged (disk_of (H.history host.old).now file) (of (H.files host.old) file) first text }
    ensures changes { ChangesFile H.Source H.Host.own file (BeginsWith 2 (of (H.files host.old) file)) host.old host.new }
    ensures fails { FailsWith (H.disk_faults host.old) (H.disk_faults host.new) result }
    ensures after { IfOk result (λ end. first ≤ end) }
    ensures room { IfOk result (λ end. end ≤ 2 ^ 62) }
    ensures others { OnOk result (S.groups store.new ≡ S.groups store.old) }
    ensures front { Told H.Source H.Host.own host.old → OnOk result (take 2 (of (H.files host.new) file) ≡ take 2 (of (H.files host.old) file)) }
    ensures staged { Told H.Source H.Host.own host.old → (text : List ℕ) → IsStaged (disk_of (H.history host.old).now file) (of (H.files host.old) file) first text
        → IfOk result (λ end. IsStaged (disk_of (H.history host.new).now file) (of (H.files host.new) file) end (text ++ S.rest store.old)) }
{
    let mut end = first;
    'pieces: loop {
        store.next_piece(piece)?;
        if piece.is_empty() {
            return Ok(end);
        }
        end = stage(host, file, end, piece.as_slice())?;
    }
}

/// Writes a group: room for its gate and its length, its payload, and then these two.
fn stage_group<H: Host, S: Stand>(
    host: &mut H,
    file: FileKind,
    at: u64,
    piece: &mut Vec<u8>,
    store: &mut S,
) -> Result<u64, GateFault>
    requires opened { IsOpen (H.standing host.old) }
    requires staged { Told H.Source H.Host.own host.old → (text : List ℕ) × IsStaged (disk_of (H.history host.old).now file) (of (H.files host.old) file) at text }
    ensures changes { ChangesFile H.Source H.Host.own file (BeginsWith 2 (of (H.files host.old) file)) host.old host.new }
    ensures fails { FailsWith (H.disk_faults host.old) (H.disk_faults host.new) result }
    ensures room { IfOk result (λ end. end ≤ 2 ^ 62) }
    ensures others { OnOk result (S.groups store.new ≡ S.groups store.old) }
    ensures front { Told H.Source H.Host.own host.old → OnOk result (take 2 (of (H.files host.new) file) ≡ take 2 (of (H.files host.old) file)) }
    ensures staged { Told H.Source H.Host.own host.old → (text : List ℕ) → IsStaged (disk_of (H.history host.old).now file) (of (H.files host.old) file) at text
        → IfOk result (λ end. IsStaged (disk_of (H.history host.new).now file) (of (H.files host.new) file) end (text ++ group (S.rest store.old))) }
{
    let first = stage(host, file, at, &[0; 9])?;
    let end = stage_payload(host, file, first, piece, store)?;
    let head = head_of(end - first);
    write(host, file, at, &head)?;
    Ok(end)
}

// What stands in front of a payload: an open gate and its length.
fn head_of(size: u64) -> [u8; 9]
    ensures { result ≡ head_before size }
{
    let mut head = [1; 9];
    head[1..].copy_from_slice(&size.to_be_bytes());
    head
}

/// Writes all groups that are still to be given, and answers the place behind them.
pub fn stage_groups<H: Host, S: Stand>(
    alloc: Global,
    host: &mut H,
    file: FileKind,
    store: &mut S,
) -> Result<u64, GateFault>
    requires opened { IsOpen (H.standing host.old) }
    requires staged { Told H.Source H.Host.own host.old → (text : List ℕ) × IsStaged (disk_of (H.history host.old).now file) (of (H.files host.old) file) FIRST_PLACE text }
    ensures changes { ChangesFile H.Source H.Host.own file (BeginsWith 2 (of (H.files host.old) file)) host.old host.new }
    ensures fails { FailsWith (H.disk_faults host.old) (H.disk_faults host.new) result }
    ensures room { IfOk result (λ end. end ≤ 2 ^ 62) }
    ensures front { Told H.Source H.Host.own host.old → OnOk result (take 2 (of (H.files host.new) file) ≡ take 2 (of (H.files host.old) file)) }
    ensures staged { Told H.Source H.Host.own host.old → (text : List ℕ) → IsStaged (disk_of (H.history host.old).now file) (of (H.files host.old) file) FIRST_PLACE text
        → IfOk result (λ end. IsStaged (disk_of (H.history host.new).now file) (of (H.files host.new) file) end (text ++ spelled (S.groups store.old))) }
{
    let mut piece = Vec::new(alloc);
    let mut end = FIRST_PLACE;
    'groups: loop {
        let more = store.next_group()?;
        if !more {
            return Ok(end);
        }
        end = stage_group(host, file, end, &mut piece, store)?;
    }
}
