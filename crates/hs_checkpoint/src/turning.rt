// Checkpoints.
ghost use Rattle.std.specs.Prelude.{◌≡◌, ◌+◌, ◌^◌, ◌<◌, Bool, not, [], OnOk, OnErr};
ghost use Rattle.hs_host.specs.Files.{IsOpen};
ghost use Rattle.hs_host.specs.Moments.{Since};
ghost use Rattle.hs_host.specs.Used.{Told, UsesDisk};
ghost use Rattle.hs_gate.specs.Faults.{FailsWith};
ghost use Rattle.hs_slots.specs.Points.{Point, IsSafe, IsTurning, slot, turned};
ghost use Rattle.hs_slots.specs.Served.{IsServed};
ghost use Rattle.hs_checkpoint.specs.Checkpoint.{HasTurned};

use crate::settling::restart;
use hs_anew::{Stand, rewrite};
use hs_gate::GateFault;
use hs_host::{FileKind, Host};
use hs_slots::Files;
use std::alloc::Global;

// The other slot.
fn other_slot(current: FileKind) -> FileKind
    ensures { (second : Bool) → current ≡ slot second → result ≡ slot (not second) }
{
    match current {
        FileKind::Script1 => FileKind::Script0,
        _ => FileKind::Script1,
    }
}

/// Makes a checkpoint: writes the slot that isn't the current one anew with the next epoch and all groups that are still to
/// be given, and then starts the backup and the log with that epoch. No page may have an image, and the current epoch is
/// below 2^62.
///
/// At each moment on the way a crash leaves files that stand for the point before, or for the next one, which has these
/// groups and nothing in the log. After an `Ok` it is the next one.
///
/// After an `Err` `files` is unchanged, and the files are to be opened again. `Disk` comes only where a call of the host
/// failed, and `NoMemory` is free.
pub fn checkpoint<H: Host, S: Stand>(
    alloc: Global,
    host: &mut H,
    files: &mut Files,
    store: &mut S,
) -> Result<(), GateFault>
    requires opened { IsOpen (H.standing host.old) }
    requires epoch { files.old.epoch < 2 ^ 62 }
    requires served { Told H.Source H.Host.own host.old → (p : Point) × IsServed p files.old (H.history host.old) (H.files host.old) × (p.images ≡ []) }
    ensures uses { UsesDisk H.Source H.Host.own host.old host.new }
    ensures fails { FailsWith (H.disk_faults host.old) (H.disk_faults host.new) result }
    ensures moments { Told H.Source H.Host.own host.old → (p : Point) → IsServed p files.old (H.history host.old) (H.files host.old) → p.images ≡ []
        → Since (IsSafe (IsTurning (S.groups store.old) p)) (H.history host.old) (H.history host.new) }
    ensures turned { Told H.Source H.Host.own host.old → (p : Point) → IsServed p files.old (H.history host.old) (H.files host.old) → p.images ≡ []
        → OnOk result (HasTurned p (S.groups store.old) (H.files host.old) (H.files host.new)) }
    ensures served { Told H.Source H.Host.own host.old → (p : Point) → IsServed p files.old (H.history host.old) (H.files host.old) → p.images ≡ []
        → OnOk result (IsServed (turned (S.groups store.old) p) files.new (H.history host.new) (H.files host.new)) }
    ensures epoch { OnOk result (files.new.epoch ≡ files.old.epoch + 1) }
    ensures err { OnErr result (files.new ≡ files.old) }
{
    let epoch = files.epoch + 1;
    let slot = other_slot(files.slot);
    rewrite(alloc, host, slot, epoch, store)?;
    let backup = restart(host, FileKind::Backup, epoch)?;
    let log = restart(host, FileKind::Log, epoch)?;
    *files = Files {
        log,
        backup,
        slot,
        epoch,
    };
    Ok(())
}
