// Births of the log and the backup.
ghost use Rattle.std.specs.Prelude.{◌≡◌, ℕ, List, false, OnOk};
ghost use Rattle.hs_host.specs.Files.{IsOpen, IsOnly};
ghost use Rattle.hs_host.specs.Moments.{Since};
ghost use Rattle.hs_host.specs.Used.{Told, UsesDisk};
ghost use Rattle.hs_gate.specs.Faults.{FailsWith};
ghost use Rattle.hs_gate.specs.Groups.{is_born};
ghost use Rattle.hs_slots.specs.Points.{IsUnborn, IsSafe, IsCreating};
ghost use Rattle.hs_checkpoint.specs.Checkpoint.{created_files};
ghost use Rattle.hs_creation.specs.Creation.{AreSettled, LeavesUnborn, IsLaid};

use hs_anew::write_synced;
use hs_gate::{GateFault, Gated};
use hs_host::{FileKind, Host};

/// Takes back the birth of the backup, where it has one, of files that stand for nothing as yet.
///
/// `Disk` comes only where a call of the host failed, and `NoMemory` is handed on from the host.
pub fn take_birth<H: Host>(host: &mut H) -> Result<(), GateFault>
    requires opened { IsOpen (H.standing host.old) }
    requires settled { Told H.Source H.Host.own host.old → AreSettled (H.history host.old) (H.files host.old) }
    requires unborn { Told H.Source H.Host.own host.old → IsUnborn (H.files host.old) }
    ensures uses { UsesDisk H.Source H.Host.own host.old host.new }
    ensures fails { FailsWith (H.disk_faults host.old) (H.disk_faults host.new) result }
    ensures moments { Told H.Source H.Host.own host.old → Since LeavesUnborn (H.history host.old) (H.history host.new) }
    ensures unborn { Told H.Source H.Host.own host.old → OnOk result (IsUnborn (H.files host.new)) }
    ensures taken { Told H.Source H.Host.own host.old → OnOk result (is_born (H.files host.new).backup ≡ false) }
    ensures settled { Told H.Source H.Host.own host.old → OnOk result (AreSettled (H.history host.new) (H.files host.new)) }
{
    let born = Gated::is_born(host, FileKind::Backup)?;
    if !born {
        return Ok(());
    }
    write_synced(host, FileKind::Backup, 0, &[0])
}

/// Writes the birth of the backup, and then that of the log, where all else is made. With the latter the database is born.
///
/// `Disk` comes only where a call of the host failed, and `NoMemory` is handed on from the host.
pub fn bear<H: Host>(host: &mut H) -> Result<(), GateFault>
    requires opened { IsOpen (H.standing host.old) }
    requires laid { Told H.Source H.Host.own host.old → (payloads : List (List ℕ)) × IsLaid payloads (H.history host.old) (H.files host.old) }
    ensures uses { UsesDisk H.Source H.Host.own host.old host.new }
    ensures fails { FailsWith (H.disk_faults host.old) (H.disk_faults host.new) result }
    ensures moments { Told H.Source H.Host.own host.old → (payloads : List (List ℕ)) → IsLaid payloads (H.history host.old) (H.files host.old)
        → Since (IsSafe (IsCreating payloads)) (H.history host.old) (H.history host.new) }
    ensures created { Told H.Source H.Host.own host.old → (payloads : List (List ℕ)) → IsLaid payloads (H.history host.old) (H.files host.old)
        → OnOk result (H.files host.new ≡ created_files payloads) }
    ensures settled { Told H.Source H.Host.own host.old → OnOk result (AreSettled (H.history host.new) (H.files host.new)) }
{
    write_synced(host, FileKind::Backup, 0, &[1])?;
    write_synced(host, FileKind::Log, 0, &[1])
}
