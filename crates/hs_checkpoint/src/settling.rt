// What recovery writes.
ghost use Rattle.std.specs.Prelude.{◌≡◌, ◌⊎◌, ℕ, ◌+◌, ◌^◌, ◌<◌, [], List, take, IfOk, OnOk, OnErr};
ghost use Rattle.hs_host.specs.Disk.{settled};
ghost use Rattle.hs_host.specs.declared.file_kind.FileKind.{FileKind as Kind};
ghost use Rattle.hs_host.specs.Files.{of, IsOpen};
ghost use Rattle.hs_host.specs.Moments.{Since, disk_of, settled_files};
ghost use Rattle.hs_host.specs.Used.{Told, UsesDisk, ChangesFile};
ghost use Rattle.hs_gate.specs.Crash.{StandsOnDisk, IsAsBefore};
ghost use Rattle.hs_gate.specs.Faults.{FailsWith};
ghost use Rattle.hs_gate.specs.Gated.{IsAtRest, empty};
ghost use Rattle.hs_gate.specs.Rewriting.{IsReady};
ghost use Rattle.hs_slots.specs.Anew.{IsAnew, renewed};
ghost use Rattle.hs_slots.specs.Points.{Point, LeavesNoOther, IsOnDisk};
ghost use Rattle.hs_slots.specs.Served.{IsHeldAs};
ghost use Rattle.hs_checkpoint.specs.Checkpoint.{DoesNotCount};

use hs_anew::start;
use hs_gate::{GateFault, Gated};
use hs_host::{FileKind, Host, sync};

/// Brings all five files to the disk as they are read.
///
/// At each moment on the way a crash leaves no file that it might not have left before.
///
/// `Disk` comes only where a call of the host failed, and `NoMemory` is handed on from the host.
pub fn sync_all<H: Host>(host: &mut H) -> Result<(), GateFault>
    requires { IsOpen (H.standing host.old) }
    ensures uses { UsesDisk H.Source H.Host.own host.old host.new }
    ensures fails { FailsWith (H.disk_faults host.old) (H.disk_faults host.new) result }
    ensures files { Told H.Source H.Host.own host.old → H.files host.new ≡ H.files host.old }
    ensures moments { Told H.Source H.Host.own host.old → Since (LeavesNoOther (H.history host.old).now) (H.history host.old) (H.history host.new) }
    ensures settled { Told H.Source H.Host.own host.old → OnOk result ((H.history host.new).now.disks ≡ settled_files (H.files host.new)) }
{
    sync(host, FileKind::Script0)?;
    sync(host, FileKind::Script1)?;
    sync(host, FileKind::Log)?;
    sync(host, FileKind::Data)?;
    sync(host, FileKind::Backup)?;
    Ok(())
}

/// Starts a log or a backup that doesn't count with an epoch, which is that of the current slot, and no groups.
///
/// At each moment on the way a crash leaves files that stand for the same point. After an `Ok` it is started, and stands
/// so on the disk.
///
/// `Disk` comes only where a call of the host failed, and `NoMemory` is handed on from the host.
pub fn restart<H: Host>(host: &mut H, file: FileKind, epoch: u64) -> Result<Gated, GateFault>
    requires opened { IsOpen (H.standing host.old) }
    requires ready { Told H.Source H.Host.own host.old → IsReady (disk_of (H.history host.old).now file) (of (H.files host.old) file) }
    ensures changes { ChangesFile H.Source H.Host.own file (IsAnew (of (H.files host.old) file) epoch []) host.old host.new }
    ensures moments { Told H.Source H.Host.own host.old → (p : Point) → p.epoch ≡ epoch → DoesNotCount p file (of (H.files host.old) file) → IsOnDisk p (H.history host.old).now → Since (IsOnDisk p) (H.history host.old) (H.history host.new) }
    ensures fails { FailsWith (H.disk_faults host.old) (H.disk_faults host.new) result }
    ensures empty { IfOk result (λ gated. gated ≡ empty file epoch) }
    ensures bytes { Told H.Source H.Host.own host.old → OnOk result (of (H.files host.new) file ≡ renewed (of (H.files host.old) file) epoch []) }
    ensures at_rest { Told H.Source H.Host.own host.old → IfOk result (IsAtRest (H.files host.new)) }
    ensures stands { Told H.Source H.Host.own host.old → IfOk result (StandsOnDisk (H.history host.new) (H.files host.new)) }
{
    start(host, file, epoch)
}

/// Cuts off what stands behind the gate that ends the groups of a log or a backup that counts, and that stands on the disk up
/// to there.
///
/// At each moment on the way a crash leaves files that stand for the same point. After an `Ok` nothing stands behind that
/// gate.
///
/// `Disk` comes only where a call of the host failed. `NoMemory` is handed on from the host, and comes where the places
/// don't fit in 64 bits.
pub fn settle<H: Host>(host: &mut H, gated: &Gated) -> Result<(), GateFault>
    requires opened { IsOpen (H.standing host.old) }
    requires stands { Told H.Source H.Host.own host.old → StandsOnDisk (H.history host.old) (H.files host.old) gated.now }
    ensures changes { ChangesFile H.Source H.Host.own gated.now.file (IsAsBefore (of (H.files host.old) gated.now.file)) host.old host.new }
    ensures fails { FailsWith (H.disk_faults host.old) (H.disk_faults host.new) result }
    ensures moments { Told H.Source H.Host.own host.old → (p : Point) (file : Kind) → (file ≡ FileKind.Log) ⊎ (file ≡ FileKind.Backup) → IsHeldAs file p.epoch gated.now (H.history host.old) (H.files host.old) → IsOnDisk p (H.history host.old).now → Since (IsOnDisk p) (H.history host.old) (H.history host.new) }
    ensures bytes { Told H.Source H.Host.own host.old → OnOk result (of (H.files host.new) gated.now.file ≡ take (gated.now.end + 1) (of (H.files host.old) gated.now.file)) }
    ensures at_rest { Told H.Source H.Host.own host.old → OnOk result (IsAtRest (H.files host.new) gated.now) }
    ensures stands { Told H.Source H.Host.own host.old → OnOk result (StandsOnDisk (H.history host.new) (H.files host.new) gated.now) }
{
    gated.settle(host)
}
