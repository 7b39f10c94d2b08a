// Writes that are brought to the disk.
ghost use Rattle.std.specs.Prelude.{◌≡◌, ◌≤◌, length, OnOk};
ghost use Rattle.hs_host.specs.Disk.{settled};
ghost use Rattle.hs_host.specs.Files.{of, overwrite, IsOpen};
ghost use Rattle.hs_host.specs.Moments.{disk_of};
ghost use Rattle.hs_host.specs.Used.{Told, Moves};
ghost use Rattle.hs_gate.specs.Crash.{IsWriting};
ghost use Rattle.hs_gate.specs.Faults.{FailsWith};

use hs_gate::GateFault;
use hs_host::{FileKind, Host, sync, write};

/// Writes bytes into a file from a place on, over what stands there, and syncs the file.
///
/// `Disk` comes only where a call of the host failed, and `NoMemory` is handed on from the host.
pub fn write_synced<H: Host>(
    host: &mut H,
    file: FileKind,
    at: u64,
    bytes: &[u8],
) -> Result<(), GateFault>
    requires opened { IsOpen (H.standing host.old) }
    requires within { Told H.Source H.Host.own host.old → at ≤ length (of (H.files host.old) file) }
    ensures moves { Moves H.Source H.Host.own file (IsWriting (H.history host.old).now file at bytes.now (of (H.files host.old) file)) host.old host.new }
    ensures fails { FailsWith (H.disk_faults host.old) (H.disk_faults host.new) result }
    ensures ok { Told H.Source H.Host.own host.old → OnOk result (of (H.files host.new) file ≡ overwrite (of (H.files host.old) file) at bytes.now) }
    ensures settled { Told H.Source H.Host.own host.old → OnOk result (disk_of (H.history host.new).now file ≡ settled (of (H.files host.new) file)) }
{
    write(host, file, at, bytes)?;
    sync(host, file)?;
    Ok(())
}
