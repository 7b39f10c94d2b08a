// Writes that are brought to the disk.
ghost use Rattle.std.specs.Prelude.{◌≡◌, ◌+◌, ◌^◌, ◌<◌, ◌≤◌, [], ◌∷◌, ◌++◌, length, take, OnOk};
ghost use Rattle.hs_host.specs.Disk.{settled};
ghost use Rattle.hs_host.specs.Files.{of, overwrite, IsOpen};
ghost use Rattle.hs_host.specs.Moments.{disk_of};
ghost use Rattle.hs_host.specs.Used.{Told, Moves, ChangesFile};
ghost use Rattle.hs_gate.specs.Crash.{IsWriting, IsPut, BeginsWith};
ghost use Rattle.hs_gate.specs.Faults.{FailsWith};
ghost use Rattle.hs_gate.specs.Rewriting.{IsKept};

use crate::gate_fault::GateFault;
use arrayvec::{ArrayVec, CapacityError};
use hs_host::{FileKind, Host, cut, sync, write};

/// As many bytes as are put together and written at once.
const SMALL_BYTES: usize = 256;

/// Writes bytes, and syncs them.
pub fn write_synced<H: Host>(
    host: &mut H,
    file: FileKind,
    at: u64,
    bytes: &[u8],
) -> Result<(), GateFault>
    requires opened { IsOpen (H.standing host.old) }
    requires within { Told H.Source H.Host.own host.old → at ≤ length (of (H.files host.old) file) }
    ensures moves { Moves H.Source H.Host.own file (IsWriting (H.history host.old).now file at bytes.now (of (H.files host.old) file)) host.old host.new }
    ensures fails { FailsWith (H.disk_faults host.old) (H.disk_faults host.new) result }
    ensures ok { Told H.Source H.Host.own host.old → OnOk result (of (H.files host.new) file ≡ overwrite (of (H.files host.old) file) at bytes.now) }
    ensures settled { Told H.Source H.Host.own host.old → OnOk result (disk_of (H.history host.new).now file ≡ settled (of (H.files host.new) file)) }
{
    write(host, file, at, bytes)?;
    sync(host, file)?;
    Ok(())
}

/// Puts these bytes in place of all that stand from a place on, and syncs them. The file is never shorter on
/// the way.
pub fn replace_from<H: Host>(
    host: &mut H,
    file: FileKind,
    at: u64,
    bytes: &[u8],
) -> Result<(), GateFault>
    requires opened { IsOpen (H.standing host.old) }
    requires room { at + length bytes.now < 2 ^ 64 }
    requires kept { Told H.Source H.Host.own host.old → IsKept (disk_of (H.history host.old).now file) at (of (H.files host.old) file) }
    ensures changes { ChangesFile H.Source H.Host.own file (BeginsWith at (of (H.files host.old) file)) host.old host.new }
    ensures fails { FailsWith (H.disk_faults host.old) (H.disk_faults host.new) result }
    ensures ok { Told H.Source H.Host.own host.old → OnOk result (of (H.files host.new) file ≡ take at (of (H.files host.old) file) ++ bytes.now) }
    ensures settled { Told H.Source H.Host.own host.old → OnOk result (disk_of (H.history host.new).now file ≡ settled (of (H.files host.new) file)) }
{
    write(host, file, at, bytes)?;
    cut(host, file, at + bytes.len() as u64)?;
    sync(host, file)?;
    Ok(())
}

/// Puts two pieces and a closed gate one behind the other, where these are at most 256 bytes.
#[inline]
fn put_together(
    bytes: &mut ArrayVec<u8, SMALL_BYTES>,
    first: &[u8],
    second: &[u8],
) -> Result<(), CapacityError>
    requires { bytes.old.items ≡ [] }
    ensures { OnOk result (bytes.new.items ≡ first.now ++ second.now ++ 0 ∷ []) }
{
    bytes.try_extend_from_slice(first)?;
    bytes.try_extend_from_slice(second)?;
    bytes.try_extend_from_slice(&[0])?;
    Ok(())
}

/// Writes two pieces and a closed gate one behind the other, at once where they are few bytes, and syncs them.
fn write_pieces<H: Host>(
    host: &mut H,
    file: FileKind,
    at: u64,
    first: &[u8],
    second: &[u8],
) -> Result<(), GateFault>
    requires opened { IsOpen (H.standing host.old) }
    requires room { at + length first.now + length second.now < 2 ^ 64 }
    requires kept { Told H.Source H.Host.own host.old → IsKept (disk_of (H.history host.old).now file) at (of (H.files host.old) file) }
    ensures changes { ChangesFile H.Source H.Host.own file (BeginsWith at (of (H.files host.old) file)) host.old host.new }
    ensures fails { FailsWith (H.disk_faults host.old) (H.disk_faults host.new) result }
    ensures ok { Told H.Source H.Host.own host.old → OnOk result (of (H.files host.new) file ≡ overwrite (of (H.files host.old) file) at (first.now ++ second.now ++ 0 ∷ [])) }
    ensures settled { Told H.Source H.Host.own host.old → OnOk result (disk_of (H.history host.new).now file ≡ settled (of (H.files host.new) file)) }
{
    let mut bytes = ArrayVec::new();
    if put_together(&mut bytes, first, second).is_ok() {
        return write_synced(host, file, at, bytes.as_slice());
    }
    let middle = at + first.len() as u64;
    write(host, file, at, first)?;
    write(host, file, middle, second)?;
    write_synced(host, file, middle + second.len() as u64, &[0])
}

/// Opens the gate at a place, once two pieces and a closed gate stand behind it on the disk. What a crash leaves on the
/// way is the file up to that gate as it was, or has all of these bytes behind it.
pub fn write_behind_gate<H: Host>(
    host: &mut H,
    file: FileKind,
    gate: u64,
    first: &[u8],
    second: &[u8],
) -> Result<(), GateFault>
    requires opened { IsOpen (H.standing host.old) }
    requires room { gate + 1 + length first.now + length second.now < 2 ^ 64 }
    requires kept { Told H.Source H.Host.own host.old → IsKept (disk_of (H.history host.old).now file) (gate + 1) (of (H.files host.old) file) }
    ensures changes { ChangesFile H.Source H.Host.own file (IsPut (of (H.files host.old) file) gate (first.now ++ second.now ++ 0 ∷ [])) host.old host.new }
    ensures fails { FailsWith (H.disk_faults host.old) (H.disk_faults host.new) result }
    ensures ok { Told H.Source H.Host.own host.old → OnOk result (of (H.files host.new) file ≡ overwrite (of (H.files host.old) file) gate (1 ∷ (first.now ++ second.now ++ 0 ∷ []))) }
    ensures settled { Told H.Source H.Host.own host.old → OnOk result (disk_of (H.history host.new).now file ≡ settled (of (H.files host.new) file)) }
{
    write_pieces(host, file, gate + 1, first, second)?;
    write_synced(host, file, gate, &[1])
}
