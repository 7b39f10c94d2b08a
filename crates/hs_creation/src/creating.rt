// Creation.
ghost use Rattle.std.specs.Prelude.{◌≡◌, OnOk, OnErr, IfOk};
ghost use Rattle.hs_host.specs.Files.{IsOpen};
ghost use Rattle.hs_host.specs.Moments.{Since};
ghost use Rattle.hs_host.specs.Used.{Told, UsesDisk};
ghost use Rattle.hs_gate.specs.Faults.{FailsWith};
ghost use Rattle.hs_slots.specs.Points.{IsUnborn, IsSafe, IsCreating, Means, first_point};
ghost use Rattle.hs_slots.specs.Served.{IsServed};
ghost use Rattle.hs_checkpoint.specs.Checkpoint.{created_files};
ghost use Rattle.hs_creation.specs.Creation.{AreSettled, LeavesUnborn, HaveHeaders, IsLaid, first_files};

use crate::births::{bear, take_birth};
use crate::laying::lay;
use hs_anew::{Stand, rewrite};
use hs_gate::{GateFault, Gated};
use hs_host::{FileKind, Host};
use hs_slots::Files;
use std::alloc::Global;

/// A log or a backup of epoch 1 without groups that isn't born.
const UNBORN: [u8; 11] = [0, 1, 0, 0, 0, 0, 0, 0, 0, 1, 0];

// Makes the log and then the backup, neither of them born.
fn lay_headers<H: Host>(host: &mut H) -> Result<(), GateFault>
    requires opened { IsOpen (H.standing host.old) }
    requires settled { Told H.Source H.Host.own host.old → AreSettled (H.history host.old) (H.files host.old) }
    requires unborn { Told H.Source H.Host.own host.old → IsUnborn (H.files host.old) }
    ensures uses { UsesDisk H.Source H.Host.own host.old host.new }
    ensures fails { FailsWith (H.disk_faults host.old) (H.disk_faults host.new) result }
    ensures moments { Told H.Source H.Host.own host.old → Since LeavesUnborn (H.history host.old) (H.history host.new) }
    ensures headers { Told H.Source H.Host.own host.old → OnOk result (HaveHeaders (H.files host.new)) }
    ensures settled { Told H.Source H.Host.own host.old → OnOk result (AreSettled (H.history host.new) (H.files host.new)) }
{
    take_birth(host)?;
    lay(host, FileKind::Log, &UNBORN)?;
    lay(host, FileKind::Backup, &UNBORN)
}

// Empties the page file, closes both slots and then writes the first one with these groups.
fn lay_slots<H: Host, S: Stand>(alloc: Global, host: &mut H, store: &mut S) -> Result<(), GateFault>
    requires opened { IsOpen (H.standing host.old) }
    requires settled { Told H.Source H.Host.own host.old → AreSettled (H.history host.old) (H.files host.old) }
    requires headers { Told H.Source H.Host.own host.old → HaveHeaders (H.files host.old) }
    ensures uses { UsesDisk H.Source H.Host.own host.old host.new }
    ensures fails { FailsWith (H.disk_faults host.old) (H.disk_faults host.new) result }
    ensures moments { Told H.Source H.Host.own host.old → Since LeavesUnborn (H.history host.old) (H.history host.new) }
    ensures laid { Told H.Source H.Host.own host.old → OnOk result (IsLaid (S.groups store.old) (H.history host.new) (H.files host.new)) }
{
    lay(host, FileKind::Data, &[])?;
    lay(host, FileKind::Script1, &[0, 0])?;
    lay(host, FileKind::Script0, &[0, 0])?;
    rewrite(alloc, host, FileKind::Script0, 1, store)
}

/// Creates a database of files that stand for nothing as yet, and that are all on the disk as they are read. The groups that are
/// still to be given are those of its first slot.
///
/// At each moment on the way a crash leaves files that stand for nothing as yet, or for the first point of a database of
/// these groups. After an `Ok` they are exactly its files: the first slot has epoch 1 and these groups, the second isn't open,
/// log and backup have epoch 1 and no groups, and there is no page. It answers how they are held.
///
/// After an `Err` they stand for what a crash may leave, and are to be opened again. `Disk` comes only where a call of the host
/// failed, and `NoMemory` is free.
pub fn create<H: Host, S: Stand>(
    alloc: Global,
    host: &mut H,
    store: &mut S,
) -> Result<Files, GateFault>
    requires opened { IsOpen (H.standing host.old) }
    requires settled { Told H.Source H.Host.own host.old → AreSettled (H.history host.old) (H.files host.old) }
    requires unborn { Told H.Source H.Host.own host.old → IsUnborn (H.files host.old) }
    ensures uses { UsesDisk H.Source H.Host.own host.old host.new }
    ensures fails { FailsWith (H.disk_faults host.old) (H.disk_faults host.new) result }
    ensures moments { Told H.Source H.Host.own host.old → Since (IsSafe (IsCreating (S.groups store.old))) (H.history host.old) (H.history host.new) }
    ensures created { Told H.Source H.Host.own host.old → OnOk result (H.files host.new ≡ created_files (S.groups store.old)) }
    ensures served { Told H.Source H.Host.own host.old → OnOk result (IsServed (first_point (S.groups store.old)) first_files (H.history host.new) (H.files host.new)) }
    ensures held { IfOk result (λ files. files ≡ first_files) }
    ensures err { Told H.Source H.Host.own host.old → OnErr result (Means (IsCreating (S.groups store.old)) (H.files host.new)) }
{
    lay_headers(host)?;
    lay_slots(alloc, host, store)?;
    bear(host)?;
    let log = Gated {
        file: FileKind::Log,
        epoch: 1,
        groups: 0,
        end: 10,
    };
    let backup = Gated {
        file: FileKind::Backup,
        epoch: 1,
        groups: 0,
        end: 10,
    };
    Ok(Files {
        log,
        backup,
        slot: FileKind::Script0,
        epoch: 1,
    })
}
