// Files that are put in place.
ghost use Rattle.std.specs.Prelude.{◌≡◌, length, OnOk};
ghost use Rattle.hs_host.specs.Disk.{settled};
ghost use Rattle.hs_host.specs.Files.{of, with_, IsOpen};
ghost use Rattle.hs_host.specs.Moments.{Since, disk_of};
ghost use Rattle.hs_host.specs.Used.{Told, UsesDisk, ChangesFile};
ghost use Rattle.hs_gate.specs.Faults.{FailsWith};
ghost use Rattle.hs_creation.specs.Creation.{AreSettled, LeavesUnborn, IsPut, MayPut};

use hs_gate::GateFault;
use hs_host::{FileKind, Host, cut, sync, write};

// Puts these bytes in place of all that a file has, and syncs it.
fn put<H: Host>(host: &mut H, file: FileKind, bytes: &[u8]) -> Result<(), GateFault>
    requires opened { IsOpen (H.standing host.old) }
    requires settled { Told H.Source H.Host.own host.old → disk_of (H.history host.old).now file ≡ settled (of (H.files host.old) file) }
    ensures changes { ChangesFile H.Source H.Host.own file (IsPut (of (H.files host.old) file) bytes.now) host.old host.new }
    ensures fails { FailsWith (H.disk_faults host.old) (H.disk_faults host.new) result }
    ensures bytes { Told H.Source H.Host.own host.old → OnOk result (of (H.files host.new) file ≡ bytes.now) }
    ensures settled { Told H.Source H.Host.own host.old → OnOk result (disk_of (H.history host.new).now file ≡ settled (of (H.files host.new) file)) }
{
    write(host, file, 0, bytes)?;
    cut(host, file, bytes.len() as u64)?;
    sync(host, file)?;
    Ok(())
}

/// Puts these bytes in place of all that a file has, where all files are on the disk and stand for nothing, whatever a crash
/// leaves of this one. After an `Ok` all files are on the disk again.
///
/// `Disk` comes only where a call of the host failed, and `NoMemory` is handed on from the host.
pub fn lay<H: Host>(host: &mut H, file: FileKind, bytes: &[u8]) -> Result<(), GateFault>
    requires opened { IsOpen (H.standing host.old) }
    requires settled { Told H.Source H.Host.own host.old → AreSettled (H.history host.old) (H.files host.old) }
    requires unborn { Told H.Source H.Host.own host.old → MayPut (H.files host.old) file bytes.now }
    ensures uses { UsesDisk H.Source H.Host.own host.old host.new }
    ensures fails { FailsWith (H.disk_faults host.old) (H.disk_faults host.new) result }
    ensures moments { Told H.Source H.Host.own host.old → Since LeavesUnborn (H.history host.old) (H.history host.new) }
    ensures files { Told H.Source H.Host.own host.old → OnOk result (H.files host.new ≡ with_ (H.files host.old) file bytes.now) }
    ensures settled { Told H.Source H.Host.own host.old → OnOk result (AreSettled (H.history host.new) (H.files host.new)) }
{
    put(host, file, bytes)
}
