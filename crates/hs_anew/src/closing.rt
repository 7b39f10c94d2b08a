// How a header gate is closed.
ghost use Rattle.std.specs.Prelude.{◌≡◌, ◌≢◌, ◌≤◌, length, take, slice_index, IfOk, OnOk};
ghost use Rattle.hs_host.specs.Files.{of, IsOpen};
ghost use Rattle.hs_host.specs.Moments.{disk_of};
ghost use Rattle.hs_host.specs.Used.{Told, ReadsFiles, ChangesFile};
ghost use Rattle.hs_gate.specs.Faults.{FailsWith};
ghost use Rattle.hs_gate.specs.Rewriting.{IsKept, IsReady};
ghost use Rattle.hs_slots.specs.Anew.{IsShut};

use crate::writing::write_synced;
use hs_gate::GateFault;
use hs_host::{FileKind, Host, read};

/// Closes a header gate that is open, and syncs it. One that isn't open is left alone.
pub fn close_gate<H: Host>(host: &mut H, file: FileKind) -> Result<(), GateFault>
    requires opened { IsOpen (H.standing host.old) }
    requires ready { Told H.Source H.Host.own host.old → IsReady (disk_of (H.history host.old).now file) (of (H.files host.old) file) }
    ensures changes { ChangesFile H.Source H.Host.own file (IsShut (of (H.files host.old) file)) host.old host.new }
    ensures fails { FailsWith (H.disk_faults host.old) (H.disk_faults host.new) result }
    ensures closed { Told H.Source H.Host.own host.old → OnOk result (slice_index (of (H.files host.new) file) 1 ≢ 1) }
    ensures birth { Told H.Source H.Host.own host.old → OnOk result (take 1 (of (H.files host.new) file) ≡ take 1 (of (H.files host.old) file)) }
    ensures kept { Told H.Source H.Host.own host.old → OnOk result (IsKept (disk_of (H.history host.new).now file) 2 (of (H.files host.new) file)) }
{
    let gate = second_byte(host, file)?;
    if gate == 1 {
        write_synced(host, file, 1, &[0])?;
    }
    Ok(())
}

// The second byte of a file.
fn second_byte<H: Host>(host: &mut H, file: FileKind) -> Result<u8, GateFault>
    requires opened { IsOpen (H.standing host.old) }
    requires within { Told H.Source H.Host.own host.old → 2 ≤ length (of (H.files host.old) file) }
    ensures reads { ReadsFiles H.Source H.Host.own host.old host.new }
    ensures fails { FailsWith (H.disk_faults host.old) (H.disk_faults host.new) result }
    ensures byte { Told H.Source H.Host.own host.old → IfOk result (λ byte. byte ≡ slice_index (of (H.files host.old) file) 1) }
{
    let mut byte = [0; 1];
    read(host, file, 1, &mut byte)?;
    Ok(byte[0])
}
