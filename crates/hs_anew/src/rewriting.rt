// Files that are written anew.
ghost use Rattle.std.specs.Prelude.{◌≡◌, ℕ, ◌+◌, ◌≤◌, List, [], ◌∷◌, ◌++◌, take, IfOk, OnOk};
ghost use Rattle.hs_host.specs.Disk.{settled};
ghost use Rattle.hs_host.specs.Files.{of, IsOpen};
ghost use Rattle.hs_host.specs.Moments.{disk_of};
ghost use Rattle.hs_host.specs.Used.{Told, ChangesFile};
ghost use Rattle.hs_gate.specs.Crash.{BeginsWith, StandsOnDisk};
ghost use Rattle.hs_gate.specs.Faults.{FailsWith};
ghost use Rattle.hs_gate.specs.Gated.{IsAtRest, empty};
ghost use Rattle.hs_gate.specs.Groups.{eight_bytes};
ghost use Rattle.hs_gate.specs.Rewriting.{IsReady, IsGroups};
ghost use Rattle.hs_slots.specs.Anew.{IsShut, IsAnew, renewed};
ghost use Rattle.hs_anew.specs.Staging.{IsStaged, IsOpened};

use crate::closing::close_gate;
use crate::staging::{FIRST_PLACE, stage, stage_groups};
use crate::stand::Stand;
use crate::writing::write_synced;
use hs_gate::{GateFault, Gated};
use hs_host::{FileKind, Host, cut, sync};
use std::alloc::Global;

// Closes the header gate, and writes the epoch behind it.
fn begin<H: Host>(host: &mut H, file: FileKind, epoch: u64) -> Result<(), GateFault>
    requires opened { IsOpen (H.standing host.old) }
    requires ready { Told H.Source H.Host.own host.old → IsReady (disk_of (H.history host.old).now file) (of (H.files host.old) file) }
    ensures changes { ChangesFile H.Source H.Host.own file (IsShut (of (H.files host.old) file)) host.old host.new }
    ensures fails { FailsWith (H.disk_faults host.old) (H.disk_faults host.new) result }
    ensures birth { Told H.Source H.Host.own host.old → OnOk result (take 1 (of (H.files host.new) file) ≡ take 1 (of (H.files host.old) file)) }
    ensures staged { Told H.Source H.Host.own host.old → OnOk result (IsStaged (disk_of (H.history host.new).now file) (of (H.files host.new) file) FIRST_PLACE (eight_bytes epoch)) }
{
    close_gate(host, file)?;
    stage(host, file, 2, &epoch.to_be_bytes())?;
    Ok(())
}

// Writes a closed gate behind the text, cuts the file there and syncs it.
fn seal<H: Host>(host: &mut H, file: FileKind, end: u64) -> Result<(), GateFault>
    requires opened { IsOpen (H.standing host.old) }
    requires staged { Told H.Source H.Host.own host.old → (text : List ℕ) × IsStaged (disk_of (H.history host.old).now file) (of (H.files host.old) file) end text }
    ensures changes { ChangesFile H.Source H.Host.own file (BeginsWith 2 (of (H.files host.old) file)) host.old host.new }
    ensures fails { FailsWith (H.disk_faults host.old) (H.disk_faults host.new) result }
    ensures bytes { Told H.Source H.Host.own host.old → (text : List ℕ) → IsStaged (disk_of (H.history host.old).now file) (of (H.files host.old) file) end text → OnOk result (of (H.files host.new) file ≡ take 2 (of (H.files host.old) file) ++ (text ++ 0 ∷ [])) }
    ensures settled { Told H.Source H.Host.own host.old → OnOk result (disk_of (H.history host.new).now file ≡ settled (of (H.files host.new) file)) }
{
    let length = stage(host, file, end, &[0])?;
    cut(host, file, length)?;
    sync(host, file)?;
    Ok(())
}

// Ends the text with a closed gate, and then opens the header gate.
fn finish<H: Host>(host: &mut H, file: FileKind, end: u64) -> Result<(), GateFault>
    requires opened { IsOpen (H.standing host.old) }
    requires long { Told H.Source H.Host.own host.old → FIRST_PLACE ≤ end }
    requires staged { Told H.Source H.Host.own host.old → (text : List ℕ) × IsStaged (disk_of (H.history host.old).now file) (of (H.files host.old) file) end text }
    ensures changes { ChangesFile H.Source H.Host.own file (λ left. (text : List ℕ) → IsStaged (disk_of (H.history host.old).now file) (of (H.files host.old) file) end text → IsOpened (of (H.files host.old) file) (text ++ 0 ∷ []) left) host.old host.new }
    ensures fails { FailsWith (H.disk_faults host.old) (H.disk_faults host.new) result }
    ensures bytes { Told H.Source H.Host.own host.old → (text : List ℕ) → IsStaged (disk_of (H.history host.old).now file) (of (H.files host.old) file) end text → OnOk result (of (H.files host.new) file ≡ take 1 (of (H.files host.old) file) ++ 1 ∷ (text ++ 0 ∷ [])) }
    ensures settled { Told H.Source H.Host.own host.old → OnOk result (disk_of (H.history host.new).now file ≡ settled (of (H.files host.new) file)) }
{
    seal(host, file, end)?;
    write_synced(host, file, 1, &[1])
}

/// Writes a file anew with an epoch and all groups that are still to be given. It keeps its birth byte.
///
/// At each moment on the way a crash leaves a file that isn't open, or was and still has its epoch, or has this epoch and all
/// of these groups; it is born where the file was. After an `Ok` it has them, and stands so on the disk.
///
/// `Disk` comes only where a call of the host failed, and `NoMemory` is free.
pub fn rewrite<H: Host, S: Stand>(
    alloc: Global,
    host: &mut H,
    file: FileKind,
    epoch: u64,
    store: &mut S,
) -> Result<(), GateFault>
    requires opened { IsOpen (H.standing host.old) }
    requires ready { Told H.Source H.Host.own host.old → IsReady (disk_of (H.history host.old).now file) (of (H.files host.old) file) }
    ensures changes { ChangesFile H.Source H.Host.own file (IsAnew (of (H.files host.old) file) epoch (S.groups store.old)) host.old host.new }
    ensures fails { FailsWith (H.disk_faults host.old) (H.disk_faults host.new) result }
    ensures bytes { Told H.Source H.Host.own host.old → OnOk result (of (H.files host.new) file ≡ renewed (of (H.files host.old) file) epoch (S.groups store.old)) }
    ensures groups { Told H.Source H.Host.own host.old → OnOk result (IsGroups epoch (S.groups store.old) (of (H.files host.new) file)) }
    ensures settled { Told H.Source H.Host.own host.old → OnOk result (disk_of (H.history host.new).now file ≡ settled (of (H.files host.new) file)) }
{
    begin(host, file, epoch)?;
    let end = stage_groups(alloc, host, file, store)?;
    finish(host, file, end)
}

/// Starts a file anew with an epoch and no groups. It keeps its birth byte.
///
/// At each moment on the way a crash leaves a file that isn't open, or was and still has its epoch, or has this epoch and
/// no group; it is born where the file was. After an `Ok` it is started, and stands so on the disk.
///
/// `Disk` comes only where a call of the host failed, and `NoMemory` is handed on from the host.
pub fn start<H: Host>(host: &mut H, file: FileKind, epoch: u64) -> Result<Gated, GateFault>
    requires opened { IsOpen (H.standing host.old) }
    requires ready { Told H.Source H.Host.own host.old → IsReady (disk_of (H.history host.old).now file) (of (H.files host.old) file) }
    ensures changes { ChangesFile H.Source H.Host.own file (IsAnew (of (H.files host.old) file) epoch []) host.old host.new }
    ensures fails { FailsWith (H.disk_faults host.old) (H.disk_faults host.new) result }
    ensures empty { IfOk result (λ gated. gated ≡ empty file epoch) }
    ensures bytes { Told H.Source H.Host.own host.old → OnOk result (of (H.files host.new) file ≡ renewed (of (H.files host.old) file) epoch []) }
    ensures groups { Told H.Source H.Host.own host.old → OnOk result (IsGroups epoch [] (of (H.files host.new) file)) }
    ensures at_rest { Told H.Source H.Host.own host.old → IfOk result (IsAtRest (H.files host.new)) }
    ensures stands { Told H.Source H.Host.own host.old → IfOk result (StandsOnDisk (H.history host.new) (H.files host.new)) }
    ensures settled { Told H.Source H.Host.own host.old → OnOk result (disk_of (H.history host.new).now file ≡ settled (of (H.files host.new) file)) }
{
    begin(host, file, epoch)?;
    finish(host, file, FIRST_PLACE)?;
    Ok(Gated {
        file,
        epoch,
        groups: 0,
        end: FIRST_PLACE,
    })
}
