// The calls of a host, each with all that it leaves alone in one clause.
ghost use Rattle.std.specs.Prelude.{◌≡◌, ◌⊎◌, ◌+◌, ◌^◌, ◌≤◌, [], length, take, IfOk, OnOk, OnErr, MatchResult, IsErrOf};
ghost use Rattle.std.specs.Io.{ReadsAtMost, WritesAtMost};
ghost use Rattle.hs_host.specs.Files.{of, with_, overwrite, piece, IsOpen};
ghost use Rattle.hs_host.specs.Host.{HasCause, HasOutputCause, TakesInput, AddsOutput};
ghost use Rattle.hs_host.specs.Moments.{Since, Next, IsWritten, IsCut, IsSynced, IsSyncing, IsPrinted, IsAsked};
ghost use Rattle.hs_host.specs.Used.{Told, UsesInput, UsesOutput, ReadsFiles, Moves};

use crate::file_kind::FileKind;
use crate::host::Host;
use crate::host_fault::HostFault;
use crate::source::Source;

/// The length of a file in bytes.
///
/// `Fault` comes only where the device failed, and `NoMemory` where memory is refused.
#[tactic(auto, using(crate::proofs::Passing::passes_since))]
pub fn len<H: Host>(host: &mut H, file: FileKind) -> Result<u64, HostFault>
    requires { IsOpen (H.standing host.old) }
    ensures reads { ReadsFiles H.Source H.Host.own host.old host.new }
    ensures cause { HasCause (H.disk_faults host.old) (H.disk_faults host.new) result }
    ensures length { H.tells → IfOk result (λ n. n ≡ length (of (H.files host.new) file)) }
{
    host.len(file)
}

/// Fills `buf` with the bytes of a file from the place `at` on, which counts bytes from 0. They must all be there.
///
/// `Fault` comes only where the device failed, and `NoMemory` where memory is refused. After either nothing is said
/// of `buf`.
#[tactic(auto, using(crate::proofs::Passing::passes_since))]
pub fn read<H: Host>(host: &mut H, file: FileKind, at: u64, buf: &mut [u8]) -> Result<(), HostFault>
    requires opened { IsOpen (H.standing host.old) }
    requires within { Told H.Source H.Host.own host.old → at + length buf.old ≤ length (of (H.files host.old) file) }
    ensures reads { ReadsFiles H.Source H.Host.own host.old host.new }
    ensures cause { HasCause (H.disk_faults host.old) (H.disk_faults host.new) result }
    ensures bytes { H.tells → OnOk result (buf.new ≡ piece at (length buf.new) (of (H.files host.new) file)) }
{
    host.read(file, at, buf)
}

/// Puts `bytes` into a file from the place `at` on, over what stands there and beyond the file's end. `at` counts
/// bytes from 0 and is at most the file's length.
///
/// `Fault` comes only where the device failed, and `NoMemory` where memory is refused; one of the two comes where
/// the file would get longer than 2^62 bytes. After either a file of an honest host reads as before, and a crash may
/// leave part of what was to be written.
#[tactic(auto, using(crate::proofs::Passing::passes_since, crate::proofs::Passing::passes_now))]
pub fn write<H: Host>(host: &mut H, file: FileKind, at: u64, bytes: &[u8]) -> Result<(), HostFault>
    requires opened { IsOpen (H.standing host.old) }
    requires within { Told H.Source H.Host.own host.old → at ≤ length (of (H.files host.old) file) }
    ensures moves { Moves H.Source H.Host.own file (IsWritten (H.history host.old).now file at (length bytes.now)) host.old host.new }
    ensures cause { HasCause (H.disk_faults host.old) (H.disk_faults host.new) result }
    ensures room { OnOk result (at + length bytes.now ≤ 2 ^ 62) }
    ensures ok { Told H.Source H.Host.own host.old → OnOk result (of (H.files host.new) file ≡ overwrite (of (H.files host.old) file) at bytes.now) }
    ensures err { Told H.Source H.Host.own host.old → OnErr result (H.files host.new ≡ H.files host.old) }
    ensures now { Told H.Source H.Host.own host.old → OnOk result (IsWritten (H.history host.old).now file at (length bytes.now) (H.history host.new).now) }
{
    host.write(file, at, bytes)
}

/// Cuts a file to its first `len` bytes, which must be there.
///
/// `Fault` comes only where the device failed, and `NoMemory` where memory is refused. After either a file of an
/// honest host reads as before, and a crash may leave it cut.
#[tactic(auto, using(crate::proofs::Passing::passes_since, crate::proofs::Passing::passes_now))]
pub fn cut<H: Host>(host: &mut H, file: FileKind, len: u64) -> Result<(), HostFault>
    requires opened { IsOpen (H.standing host.old) }
    requires within { Told H.Source H.Host.own host.old → len ≤ length (of (H.files host.old) file) }
    ensures moves { Moves H.Source H.Host.own file (IsCut (H.history host.old).now file len) host.old host.new }
    ensures cause { HasCause (H.disk_faults host.old) (H.disk_faults host.new) result }
    ensures ok { Told H.Source H.Host.own host.old → OnOk result (of (H.files host.new) file ≡ take len (of (H.files host.old) file)) }
    ensures err { Told H.Source H.Host.own host.old → OnErr result (H.files host.new ≡ H.files host.old) }
    ensures now { Told H.Source H.Host.own host.old → OnOk result (IsCut (H.history host.old).now file len (H.history host.new).now) }
{
    host.cut(file, len)
}

/// Brings a file to the disk. After an `Ok` its bytes and its length stand there.
///
/// `Fault` comes only where the device failed, and `NoMemory` where memory is refused. After either nothing is said
/// of how much stands there.
#[tactic(auto, using(crate::proofs::Passing::passes_since, crate::proofs::Passing::synced_now))]
pub fn sync<H: Host>(host: &mut H, file: FileKind) -> Result<(), HostFault>
    requires { IsOpen (H.standing host.old) }
    ensures moves { Moves H.Source H.Host.own file (IsSyncing (H.history host.old).now file (of (H.files host.old) file) result) host.old host.new }
    ensures cause { HasCause (H.disk_faults host.old) (H.disk_faults host.new) result }
    ensures files { Told H.Source H.Host.own host.old → H.files host.new ≡ H.files host.old }
    ensures now { Told H.Source H.Host.own host.old → OnOk result (IsSynced (H.history host.old).now file (of (H.files host.old) file) (H.history host.new).now) }
{
    host.sync(file)
}

/// Hands over bytes from the front of `bytes` as the next output, and answers how many were taken. Taking none of a
/// piece that isn't empty is a failure too, and raises `output_faults`.
///
/// `Fault` comes only where writing failed, and `NoMemory` where memory is refused. After either nothing was taken.
#[tactic(auto, using(crate::proofs::Passing::passes_since))]
pub fn tell<H: Host>(host: &mut H, bytes: &[u8]) -> Result<usize, HostFault>
    ensures uses { UsesOutput H.Source H.Host.own host.old host.new }
    ensures cause { HasOutputCause (H.output_faults host.old) (H.output_faults host.new) bytes.now result }
    ensures bound { WritesAtMost result bytes.now }
    ensures output { H.tells → AddsOutput (H.written host.old) (H.written host.new) bytes.now result }
    ensures moments { H.tells → Since (IsPrinted (H.history host.old).now bytes.now) (H.history host.old) (H.history host.new) }
{
    host.write_output(bytes)
}

/// Asks for input: puts bytes of it at the front of `buf` and answers how many. It answers 0 for a `buf` that isn't
/// empty only at the end of the input.
///
/// `Fault` comes only where reading failed, and `NoMemory` where memory is refused. After either no byte was taken.
pub fn ask<H: Host>(host: &mut H, buf: &mut [u8]) -> Result<usize, HostFault>
    ensures uses { UsesInput H.Source H.Host.own host.old host.new }
    ensures cause { HasCause (H.input_faults host.old) (H.input_faults host.new) result }
    ensures bound { ReadsAtMost result buf.new }
    ensures bytes { H.tells → TakesInput (H.unread host.old) (H.unread host.new) result buf.new }
    ensures asked { H.tells → IfOk result (λ n. Next (IsAsked (H.history host.old).now (take n buf.new)) (H.history host.old) (H.history host.new)) }
    ensures failed { H.tells → IsErrOf result HostFault.Fault → Next (IsAsked (H.history host.old).now []) (H.history host.old) (H.history host.new) }
{
    host.read_input(buf)
}
