// The whole outside.
ghost use Rattle.std.specs.Prelude.{◌≡◌, ◌⊎◌, ℕ, ◌+◌, ◌^◌, ◌≤◌, List, [], ◌++◌, length, take, IfOk, OnOk, OnErr, IsErrOf};
ghost use Rattle.std.specs.Io.{WritesAtMost};
ghost use Rattle.hs_host.specs.Files.{Five, of, with_, overwrite, piece, Standing, IsUnnamed, IsOpen, IsForeign, IsHonest, mounted};
ghost use Rattle.hs_host.specs.declared.file_kind.FileKind.{FileKind};
ghost use Rattle.hs_host.specs.Disk.{Leaves, written_at, cut_to, settled};
ghost use Rattle.hs_host.specs.Host.{HasCause, HasMountCause, HasOutputCause, AddsOutput};
ghost use Rattle.hs_host.specs.Moments.{History, Since, Next, Passes, IsStill, IsWritten, IsCut, IsSyncing, IsPrinted, IsAsked, IsReading, disk_of};

use crate::file_kind::FileKind;
use crate::host_fault::HostFault;
use crate::mount_fault::MountFault;
use crate::source::Source;

/// The whole outside. There is one host for all devices, so that they share one clock.
///
/// Every call on a file needs a host whose `mount` answered `Ok`.
pub trait Host: Source {
    /// The output so far.
    ghost written: { Self → List ℕ };

    /// How often writing the output has failed.
    ghost output_faults: { Self → ℕ };

    /// What a read of each file gives.
    ghost files: { Self → Five (List ℕ) };

    /// Its name, whether its files are open, and whether they are foreign and read honestly. Only `mount`
    /// changes it.
    ghost standing: { Self → Standing };

    /// How often a call on the files has failed.
    ghost disk_faults: { Self → ℕ };

    /// The moments so far: at each, the output and the input taken by then, and what the disk has of each file, from which
    /// follows what a crash at that moment may leave. Every call but `mount` makes one, but for one that wants memory, which
    /// may make none.
    ghost history: { Self → History };

    /// Takes bytes from the front of `bytes` as the next output, and answers how many. Taking none of a
    /// piece that isn't empty is a failure too, and raises `output_faults`.
    ///
    /// `Fault` comes only where writing failed, and then `output_faults` rose. `NoMemory` may come where memory is
    /// refused. After either nothing was taken.
    fn write_output(&mut self, bytes: &[u8]) -> Result<usize, HostFault>
        ensures bound { WritesAtMost result bytes.now }
        ensures output { Self.tells → AddsOutput (written self.old) (written self.new) bytes.now result }
        ensures moments { Self.tells → Passes (IsPrinted (history self.old).now bytes.now) result (history self.old) (history self.new) }
        ensures cause { HasOutputCause (output_faults self.old) (output_faults self.new) bytes.now result }
        ensures input { Self.unread self.new ≡ Self.unread self.old }
        ensures input_faults { Self.input_faults self.new ≡ Self.input_faults self.old }
        ensures files { files self.new ≡ files self.old }
        ensures standing { standing self.new ≡ standing self.old }
        ensures disk_faults { disk_faults self.new ≡ disk_faults self.old };

    /// Opens the files of the database `name`, which are `name` with `.script`, `.script.new`, `.log`,
    /// `.data` and `.backup` behind it, and makes missing ones empty. From then on the host has this name,
    /// but after want of memory. It answers `Foreign` exactly where the files are another program's, as they are where
    /// `name.properties` stands beside them; then it makes and changes none.
    ///
    /// `Fault` comes only where the files can't be opened or made, and then `disk_faults` rose. `NoMemory` may come
    /// where memory is refused.
    fn mount(&mut self, name: &str) -> Result<(), MountFault>
        requires { IsUnnamed (standing self.old) }
        ensures standing { standing self.new ≡ mounted name.now result (standing self.old) }
        ensures foreign { Self.tells → IsErrOf result MountFault.Foreign → IsForeign (standing self.old) }
        ensures own { Self.tells → OnOk result (IsForeign (standing self.old) → ⊥) }
        ensures files { Self.tells → files self.new ≡ files self.old }
        ensures history { Self.tells → history self.new ≡ history self.old }
        ensures cause { HasMountCause (disk_faults self.old) (disk_faults self.new) result }
        ensures input { Self.unread self.new ≡ Self.unread self.old }
        ensures input_faults { Self.input_faults self.new ≡ Self.input_faults self.old }
        ensures output { written self.new ≡ written self.old }
        ensures output_faults { output_faults self.new ≡ output_faults self.old };

    /// The length of a file in bytes.
    ///
    /// `Fault` comes only where the device failed, and then `disk_faults` rose. `NoMemory` may come where memory is
    /// refused.
    fn len(&mut self, file: FileKind) -> Result<u64, HostFault>
        requires { IsOpen (standing self.old) }
        ensures length { Self.tells → IfOk result (λ n. n ≡ length (of (files self.new) file)) }
        ensures files { Self.tells → IsHonest (standing self.old) → files self.new ≡ files self.old }
        ensures moments { Self.tells → IsHonest (standing self.old) → Passes (IsStill (history self.old).now) result (history self.old) (history self.new) }
        ensures cause { HasCause (disk_faults self.old) (disk_faults self.new) result }
        ensures standing { standing self.new ≡ standing self.old }
        ensures input { Self.unread self.new ≡ Self.unread self.old }
        ensures input_faults { Self.input_faults self.new ≡ Self.input_faults self.old }
        ensures output { written self.new ≡ written self.old }
        ensures output_faults { output_faults self.new ≡ output_faults self.old };

    /// Fills `buf` with the bytes of a file from the place `at` on, which counts bytes from 0. They must all be there.
    ///
    /// `Fault` comes only where the device failed, and then `disk_faults` rose. `NoMemory` may come where memory is
    /// refused. After either nothing is said of `buf`.
    fn read(&mut self, file: FileKind, at: u64, buf: &mut [u8]) -> Result<(), HostFault>
        requires opened { IsOpen (standing self.old) }
        requires within { Self.tells → IsHonest (standing self.old) → at + length buf.old ≤ length (of (files self.old) file) }
        ensures bytes { Self.tells → OnOk result (buf.new ≡ piece at (length buf.new) (of (files self.new) file)) }
        ensures files { Self.tells → IsHonest (standing self.old) → files self.new ≡ files self.old }
        ensures moments { Self.tells → IsHonest (standing self.old) → Passes (IsStill (history self.old).now) result (history self.old) (history self.new) }
        ensures cause { HasCause (disk_faults self.old) (disk_faults self.new) result }
        ensures standing { standing self.new ≡ standing self.old }
        ensures input { Self.unread self.new ≡ Self.unread self.old }
        ensures input_faults { Self.input_faults self.new ≡ Self.input_faults self.old }
        ensures output { written self.new ≡ written self.old }
        ensures output_faults { output_faults self.new ≡ output_faults self.old };

    /// Puts `bytes` into a file from the place `at` on, over what stands there and beyond the file's end.
    /// `at` counts bytes from 0 and is at most the file's length.
    ///
    /// `Fault` comes only where the device failed, and then `disk_faults` rose. `NoMemory` may come where memory is
    /// refused. A file never gets longer than 2^62 bytes: a write beyond them answers one of the two. After either
    /// a file of an honest host is as before.
    fn write(&mut self, file: FileKind, at: u64, bytes: &[u8]) -> Result<(), HostFault>
        requires opened { IsOpen (standing self.old) }
        requires within { Self.tells → IsHonest (standing self.old) → at ≤ length (of (files self.old) file) }
        ensures room { OnOk result (at + length bytes.now ≤ 2 ^ 62) }
        ensures ok { Self.tells → IsHonest (standing self.old) → OnOk result (files self.new ≡ with_ (files self.old) file (overwrite (of (files self.old) file) at bytes.now)) }
        ensures err { Self.tells → IsHonest (standing self.old) → OnErr result (files self.new ≡ files self.old) }
        ensures moments { Self.tells → IsHonest (standing self.old) → Passes (IsWritten (history self.old).now file at (length bytes.now)) result (history self.old) (history self.new) }
        ensures cause { HasCause (disk_faults self.old) (disk_faults self.new) result }
        ensures standing { standing self.new ≡ standing self.old }
        ensures input { Self.unread self.new ≡ Self.unread self.old }
        ensures input_faults { Self.input_faults self.new ≡ Self.input_faults self.old }
        ensures output { written self.new ≡ written self.old }
        ensures output_faults { output_faults self.new ≡ output_faults self.old };

    /// Cuts a file to its first `len` bytes, which must be there.
    ///
    /// `Fault` comes only where the device failed, and then `disk_faults` rose. `NoMemory` may come where memory is
    /// refused. After either a file of an honest host is as before.
    fn cut(&mut self, file: FileKind, len: u64) -> Result<(), HostFault>
        requires opened { IsOpen (standing self.old) }
        requires within { Self.tells → IsHonest (standing self.old) → len ≤ length (of (files self.old) file) }
        ensures ok { Self.tells → IsHonest (standing self.old) → OnOk result (files self.new ≡ with_ (files self.old) file (take len (of (files self.old) file))) }
        ensures err { Self.tells → IsHonest (standing self.old) → OnErr result (files self.new ≡ files self.old) }
        ensures moments { Self.tells → IsHonest (standing self.old) → Passes (IsCut (history self.old).now file len) result (history self.old) (history self.new) }
        ensures cause { HasCause (disk_faults self.old) (disk_faults self.new) result }
        ensures standing { standing self.new ≡ standing self.old }
        ensures input { Self.unread self.new ≡ Self.unread self.old }
        ensures input_faults { Self.input_faults self.new ≡ Self.input_faults self.old }
        ensures output { written self.new ≡ written self.old }
        ensures output_faults { output_faults self.new ≡ output_faults self.old };

    /// Brings a file to the disk. After an `Ok` its bytes and its length stand there.
    ///
    /// `Fault` comes only where the device failed, and then `disk_faults` rose. `NoMemory` may come where memory is
    /// refused. After either nothing is said of how much stands there.
    fn sync(&mut self, file: FileKind) -> Result<(), HostFault>
        requires { IsOpen (standing self.old) }
        ensures files { Self.tells → IsHonest (standing self.old) → files self.new ≡ files self.old }
        ensures moments { Self.tells → IsHonest (standing self.old) → Passes (IsSyncing (history self.old).now file (of (files self.old) file) result) result (history self.old) (history self.new) }
        ensures cause { HasCause (disk_faults self.old) (disk_faults self.new) result }
        ensures standing { standing self.new ≡ standing self.old }
        ensures input { Self.unread self.new ≡ Self.unread self.old }
        ensures input_faults { Self.input_faults self.new ≡ Self.input_faults self.old }
        ensures output { written self.new ≡ written self.old }
        ensures output_faults { output_faults self.new ≡ output_faults self.old };

    ghost reading_keeps_output: { (a b : Self) → Self.only_input a b → (written b ≡ written a) × (output_faults b ≡ output_faults a) };

    ghost reading_keeps_files: { (a b : Self) → Self.only_input a b → (files b ≡ files a) × (standing b ≡ standing a) × (disk_faults b ≡ disk_faults a) };

    ghost output_now: { (h : Self) → Self.tells → (history h).now.out ≡ written h };

    ghost read_may_be_left: { (h : Self) → Self.tells → IsHonest (standing h) → (file : FileKind) → Leaves (disk_of (history h).now file) (of (files h) file) };

    ghost reading_passes: { (a b : Self) → Self.only_input a b → Self.tells → Since (IsReading (history a).now) (history a) (history b) };

    ghost reading_takes: { (a b : Self) → Self.only_input a b → Self.tells → (history b).now.taken ++ Self.unread b ≡ (history a).now.taken ++ Self.unread a };

    ghost reads_moment: { (a b : Self) (bytes : List ℕ) → Self.tells → Self.reads a b bytes → Self.makes_moment a b → Next (IsAsked (history a).now bytes) (history a) (history b) };

    ghost reads_asked: { (a b : Self) (bytes : List ℕ) → Self.tells → Self.reads a b bytes → ((bytes ≡ []) × (history b ≡ history a)) ⊎ Next (IsAsked (history a).now bytes) (history a) (history b) };
}
