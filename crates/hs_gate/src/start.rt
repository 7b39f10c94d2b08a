// How a gated file begins.
ghost use Rattle.std.specs.Prelude.{◌≡◌, ◌≢◌, ◌+◌, ◌^◌, ◌<◌, [], ◌∷◌, ◌++◌, length, take, slice_index, false, IfOk, OnOk, OnErr};
ghost use Rattle.hs_host.specs.Disk.{settled};
ghost use Rattle.hs_host.specs.Files.{of, IsOpen};
ghost use Rattle.hs_host.specs.Moments.{disk_of};
ghost use Rattle.hs_host.specs.Used.{Told, ReadsFiles, ChangesFile};
ghost use Rattle.hs_gate.specs.Crash.{StandsOnDisk, HasSameHeader, IsAny};
ghost use Rattle.hs_gate.specs.Faults.{FailsWith};
ghost use Rattle.hs_gate.specs.Groups.{is_born, eight_bytes};
ghost use Rattle.hs_gate.specs.Rewriting.{IsKept, IsReady, IsClosing, IsRewriting, body_of};

use crate::found::FIRST_PLACE;
use crate::gate_fault::GateFault;
use crate::gated::Gated;
use crate::reading::byte_at;
use crate::writing::{replace_from, write_synced};
use hs_host::{FileKind, Host, cut, len, sync, write};

impl Gated {
    ghost use Rattle.hs_gate.specs.Gated.{IsAtRest, IsUnbornOrCreated, empty, started, created};

    /// Whether a file is born: it isn't empty, and its first byte is 1.
    ///
    /// `Disk` comes only where a call of the host failed, and `NoMemory` is handed on from the host.
    pub fn is_born<H: Host>(host: &mut H, file: FileKind) -> Result<bool, GateFault>
        requires { IsOpen (H.standing host.old) }
        ensures reads { ReadsFiles H.Source H.Host.own host.old host.new }
        ensures fails { FailsWith (H.disk_faults host.old) (H.disk_faults host.new) result }
        ensures born { Told H.Source H.Host.own host.old → IfOk result (λ born. born ≡ is_born (of (H.files host.old) file)) }
    {
        if len(host, file)? == 0 {
            return Ok(false);
        }
        Ok(byte_at(host, file, 0)? == 1)
    }

    /// Makes a file anew, whatever stands in it, as a born one of epoch 1 without groups. It is written unborn
    /// and synced first, and then born and synced. It is never shorter than this on the way.
    ///
    /// Nothing is promised of what a crash leaves of the file while it is made anew. After an `Ok` all of it
    /// stands on the disk. After an `Err` a file that wasn't born still isn't, or it is whole.
    ///
    /// `Disk` comes only where a call of the host failed, and `NoMemory` is handed on from the host.
    pub fn create<H: Host>(host: &mut H, file: FileKind) -> Result<Gated, GateFault>
        requires { IsOpen (H.standing host.old) }
        ensures changes { ChangesFile H.Source H.Host.own file IsAny host.old host.new }
        ensures fails { FailsWith (H.disk_faults host.old) (H.disk_faults host.new) result }
        ensures empty { IfOk result (λ gated. gated ≡ empty file 1) }
        ensures ok { Told H.Source H.Host.own host.old → OnOk result (of (H.files host.new) file ≡ created) }
        ensures err { Told H.Source H.Host.own host.old → is_born (of (H.files host.old) file) ≡ false → OnErr result (IsUnbornOrCreated (of (H.files host.new) file)) }
        ensures at_rest { Told H.Source H.Host.own host.old → IfOk result (IsAtRest (H.files host.new)) }
        ensures stands { Told H.Source H.Host.own host.old → IfOk result (StandsOnDisk (H.history host.new) (H.files host.new)) }
    {
        let unborn = [0, 1, 0, 0, 0, 0, 0, 0, 0, 1, 0];
        write(host, file, 0, &unborn)?;
        cut(host, file, unborn.len() as u64)?;
        sync(host, file)?;
        write(host, file, 0, &[1])?;
        sync(host, file)?;
        Ok(Gated::empty(file, 1))
    }

    /// Starts a file anew with an epoch and no groups (`rewrite`). Its header is closed, or its epoch counts for
    /// nothing. It keeps its birth byte.
    ///
    /// At each moment on the way a crash leaves a file that isn't open, or was and still has its epoch, or is started
    /// as a whole. After an `Ok` it is, and stands on the disk.
    ///
    /// `Disk` comes only where a call of the host failed, and `NoMemory` is handed on from the host.
    pub fn start<H: Host>(host: &mut H, file: FileKind, epoch: u64) -> Result<Gated, GateFault>
        requires opened { IsOpen (H.standing host.old) }
        requires ready { Told H.Source H.Host.own host.old → IsReady (disk_of (H.history host.old).now file) (of (H.files host.old) file) }
        ensures changes { ChangesFile H.Source H.Host.own file (IsRewriting (of (H.files host.old) file) (body_of epoch [])) host.old host.new }
        ensures fails { FailsWith (H.disk_faults host.old) (H.disk_faults host.new) result }
        ensures empty { IfOk result (λ gated. gated ≡ empty file epoch) }
        ensures ok { Told H.Source H.Host.own host.old → OnOk result (of (H.files host.new) file ≡ started (of (H.files host.old) file) epoch) }
        ensures at_rest { Told H.Source H.Host.own host.old → IfOk result (IsAtRest (H.files host.new)) }
        ensures stands { Told H.Source H.Host.own host.old → IfOk result (StandsOnDisk (H.history host.new) (H.files host.new)) }
    {
        rewrite(host, file, &header_of(epoch))?;
        Ok(Gated::empty(file, epoch))
    }

    // A file without groups.
    fn empty(file: FileKind, epoch: u64) -> Gated
        ensures { result ≡ empty file epoch }
    {
        Gated {
            file,
            epoch,
            groups: 0,
            end: FIRST_PLACE,
        }
    }
}

// An epoch and a closed gate.
fn header_of(epoch: u64) -> [u8; 9]
    ensures { result ≡ eight_bytes epoch ++ 0 ∷ [] }
{
    let mut header = [0; 9];
    header[..8].copy_from_slice(&epoch.to_be_bytes());
    header
}

// Closes a header gate that is open, and syncs it. One that isn't open is left alone.
fn close_gate<H: Host>(host: &mut H, file: FileKind) -> Result<(), GateFault>
    requires opened { IsOpen (H.standing host.old) }
    requires ready { Told H.Source H.Host.own host.old → IsReady (disk_of (H.history host.old).now file) (of (H.files host.old) file) }
    ensures changes { ChangesFile H.Source H.Host.own file (IsClosing (of (H.files host.old) file)) host.old host.new }
    ensures fails { FailsWith (H.disk_faults host.old) (H.disk_faults host.new) result }
    ensures closed { Told H.Source H.Host.own host.old → OnOk result (slice_index (of (H.files host.new) file) 1 ≢ 1) }
    ensures birth { Told H.Source H.Host.own host.old → OnOk result (take 1 (of (H.files host.new) file) ≡ take 1 (of (H.files host.old) file)) }
    ensures kept { Told H.Source H.Host.own host.old → OnOk result (IsKept (disk_of (H.history host.new).now file) 2 (of (H.files host.new) file)) }
{
    if byte_at(host, file, 1)? == 1 {
        write_synced(host, file, 1, &[0])?;
    }
    Ok(())
}

/// Writes a file anew behind its birth byte and its header gate. `body` is its epoch in 8 bytes, its groups and a
/// closed gate. An open header gate is closed and synced first; then the body is written, the file is cut behind it
/// and synced; then the header gate is opened and synced. A gate that isn't open is never written closed.
///
/// At each moment on the way a crash leaves a file that isn't open, or was and still has its epoch, or has the whole
/// body behind its header gate; and it is born where the file was. After an `Ok` it is open with this body, and stands
/// on the disk.
///
/// `Disk` comes only where a call of the host failed, and `NoMemory` is handed on from the host.
pub fn rewrite<H: Host>(host: &mut H, file: FileKind, body: &[u8]) -> Result<(), GateFault>
    requires opened { IsOpen (H.standing host.old) }
    requires room { 2 + length body.now < 2 ^ 64 }
    requires ready { Told H.Source H.Host.own host.old → IsReady (disk_of (H.history host.old).now file) (of (H.files host.old) file) }
    ensures changes { ChangesFile H.Source H.Host.own file (IsRewriting (of (H.files host.old) file) body.now) host.old host.new }
    ensures fails { FailsWith (H.disk_faults host.old) (H.disk_faults host.new) result }
    ensures ok { Told H.Source H.Host.own host.old → OnOk result (of (H.files host.new) file ≡ take 1 (of (H.files host.old) file) ++ 1 ∷ body.now) }
    ensures settled { Told H.Source H.Host.own host.old → OnOk result (disk_of (H.history host.new).now file ≡ settled (of (H.files host.new) file)) }
{
    close_gate(host, file)?;
    replace_from(host, file, 2, body)?;
    write_synced(host, file, 1, &[1])
}
