// A host in memory whose calls fail where a list says so.
ghost use Rattle.std.specs.Prelude.{◌≡◌, ◌↔◌, ◌⊎◌, ℕ, List, ◌≤◌, ◌+◌, ◌-◌, ◌^◌, min, [], ◌∷◌, length, take, IsTrue, IfOk, OnOk, OnErr, IsErrOf, MatchResult, Contains, None, false, true, refl};
ghost use Rattle.std.proofs.Common.{◌∙◌, ap};
ghost use Rattle.hs_memhost.specs.Input.{left_of};
ghost use Rattle.std.specs.Io.{ReadsAtMost, WritesAtMost};
ghost use Rattle.hs_host.specs.Files.{of, with_, overwrite, piece, IsForeign, mounted};
ghost use Rattle.hs_host.specs.Host.{HasCause, HasMountCause, HasOutputCause, Rose, TakesInput, AddsOutput};

use crate::call_list::CallList;
use crate::devices::Devices;
use crate::images::Images;
use crate::input::Input;
use crate::mounting::Mounting;
use hs_host::{FileKind, Host, HostFault, MountFault, Source};
use hs_values::Bytes;
use std::alloc::Global;

/// A host in memory. Its calls are counted from 0, and those whose numbers are in a list answer `Fault`.
#[derive(Drop)]
pub struct MemHost {
    input: Input,
    devices: Devices,
    mounting: Mounting,
    is_foreign: bool,
    failing: CallList,
    calls: u64,
    input_faults: u64,
    output_faults: u64,
    disk_faults: u64,
}

impl MemHost {
    ghost use Rattle.hs_memhost.specs.Images.{files_of};
    ghost use Rattle.hs_memhost.specs.Memory.{calls_of, failing_of};
    ghost use Rattle.hs_memhost.specs.Replay.{history_of};

    /// A host with this input, no output, no name and no call yet. Its files are these, all on the disk. They are
    /// those of another program exactly where `foreign` says so. Its calls are counted from 0, those on the input, the output and
    /// the files together. The calls whose numbers are in `failing` answer `Fault`, and no other call does. They change nothing that is
    /// read, but a crash may leave part of a write or a cut that failed.
    pub fn new(
        alloc: Global,
        input: Bytes,
        files: Images,
        foreign: bool,
        failing: CallList,
    ) -> MemHost
        ensures unread { ⟦<MemHost as Source>⟧.unread result ≡ input }
        ensures written { ⟦<MemHost as Host>⟧.written result ≡ [] }
        ensures files { ⟦<MemHost as Host>⟧.files result ≡ files_of files }
        ensures history { ⟦<MemHost as Host>⟧.history result ≡ history_of (files_of files) [] }
        ensures standing { ⟦<MemHost as Host>⟧.standing result ≡ record { name = None; is_open = false; is_foreign = foreign; is_honest = true } }
        ensures failing { failing_of result ≡ failing }
        ensures calls { calls_of result ≡ 0 }
        ensures input_faults { ⟦<MemHost as Source>⟧.input_faults result ≡ 0 }
        ensures output_faults { ⟦<MemHost as Host>⟧.output_faults result ≡ 0 }
        ensures disk_faults { ⟦<MemHost as Host>⟧.disk_faults result ≡ 0 }
    {
        MemHost {
            input: Input::new(alloc, input),
            devices: Devices::new(alloc, files),
            mounting: Mounting::new(alloc),
            is_foreign: foreign,
            failing,
            calls: 0,
            input_faults: 0,
            output_faults: 0,
            disk_faults: 0,
        }
    }

    /// From now on a read of the input gives at most so many bytes, but at least one: the lengths are taken in turn, and again
    /// from the first; an empty list sets no bound. What is read in all stays the same; how it is cut is tested, and promised
    /// by no clause.
    pub fn give_in_pieces(&mut self, lengths: Vec<usize>)
        ensures unread { ⟦<MemHost as Source>⟧.unread self.new ≡ ⟦<MemHost as Source>⟧.unread self.old }
        ensures written { ⟦<MemHost as Host>⟧.written self.new ≡ ⟦<MemHost as Host>⟧.written self.old }
        ensures files { ⟦<MemHost as Host>⟧.files self.new ≡ ⟦<MemHost as Host>⟧.files self.old }
        ensures history { ⟦<MemHost as Host>⟧.history self.new ≡ ⟦<MemHost as Host>⟧.history self.old }
        ensures standing { ⟦<MemHost as Host>⟧.standing self.new ≡ ⟦<MemHost as Host>⟧.standing self.old }
        ensures failing { failing_of self.new ≡ failing_of self.old }
        ensures calls { calls_of self.new ≡ calls_of self.old }
        ensures input_faults { ⟦<MemHost as Source>⟧.input_faults self.new ≡ ⟦<MemHost as Source>⟧.input_faults self.old }
        ensures output_faults { ⟦<MemHost as Host>⟧.output_faults self.new ≡ ⟦<MemHost as Host>⟧.output_faults self.old }
        ensures disk_faults { ⟦<MemHost as Host>⟧.disk_faults self.new ≡ ⟦<MemHost as Host>⟧.disk_faults self.old }
    {
        self.input.set_pieces(lengths);
    }

    /// The output so far.
    pub fn output(&self) -> &[u8]
        ensures { result.now ≡ ⟦<MemHost as Host>⟧.written self.now }
    {
        self.devices.output()
    }

    /// The bytes of a file.
    pub fn image(&self, file: FileKind) -> &[u8]
        ensures { result.now ≡ of (⟦<MemHost as Host>⟧.files self.now) file }
    {
        self.devices.get(file)
    }

    /// How many calls were made.
    pub fn calls(&self) -> u64
        ensures { result ≡ calls_of self.now }
    {
        self.calls
    }

    // Counts a call, and answers whether it is to fail.
    fn fails_now(&mut self) -> bool
        ensures listed { IsTrue result ↔ Contains (failing_of self.old) (calls_of self.old) }
        ensures counted { self.new ≡ record self.old { calls = min (self.old.calls + 1) (2 ^ 64 - 1) } }
    {
        let fails = self.failing.contains(self.calls);
        self.calls = self.calls.saturating_add(1);
        fails
    }

    // Counts a fault of the disk.
    fn count_disk_fault(&mut self)
        ensures counted { self.new ≡ record self.old { disk_faults = min (self.old.disk_faults + 1) (2 ^ 64 - 1) } }
        ensures kept { self.old.disk_faults ≤ self.new.disk_faults }
        ensures rose { Rose self.old.disk_faults self.new.disk_faults }
    {
        self.disk_faults = self.disk_faults.saturating_add(1);
    }
}

impl Source for MemHost {
    ghost use Rattle.hs_memhost.specs.Memory.{calls_of, failing_of, history_in, kept_of, OnlyInput, IsOneRead};
    ghost use Rattle.hs_memhost.specs.Reading.{reads_none, reads_then};

    ghost tells = { Unit {0} };

    ghost unread = { λ h. left_of h.input };

    ghost input_faults = { λ h. h.input_faults };

    ghost only_input = { OnlyInput };

    ghost nothing_read = { λ h. record { kept = refl; read = reads_none (history_in h) (left_of h.input) } };

    ghost read_on = { λ a b c ab bc. record { kept = bc.kept ∙ ab.kept; read = reads_then (history_in a) (history_in b) (history_in c) (left_of a.input) (left_of b.input) (left_of c.input) ab.read bc.read } };

    ghost reads = { IsOneRead };

    ghost makes_moment = { λ a b. (history_in b).past ≡ (history_in a).now ∷ (history_in a).past };

    ghost reads_unread = { λ a b bytes told one. one.taken };

    fn read_input(&mut self, buf: &mut [u8]) -> Result<usize, HostFault>
        ensures bound { ReadsAtMost result buf.new }
        ensures bytes { TakesInput (left_of self.old.input) (left_of self.new.input) result buf.new }
        ensures cause { HasCause self.old.input_faults self.new.input_faults result }
        ensures only { OnlyInput self.old self.new }
        ensures one { MatchResult result (λ n. IsOneRead self.old self.new (take n buf.new)) (λ _. IsOneRead self.old self.new []) }
        ensures moment { IsErrOf result HostFault.NoMemory ⊎ ((history_in self.new).past ≡ (history_in self.old).now ∷ (history_in self.old).past) }
        ensures fault { IsErrOf result HostFault.Fault → Contains (failing_of self.old) (calls_of self.old) }
        ensures listed { Contains (failing_of self.old) (calls_of self.old) → IsErrOf result HostFault.Fault ⊎ IsErrOf result HostFault.NoMemory }
        ensures calls { calls_of self.new ≡ min (calls_of self.old + 1) (2 ^ 64 - 1) }
    {
        if self.fails_now() {
            self.devices.take_input(&[])?;
            self.input_faults = self.input_faults.saturating_add(1);
            return Err(HostFault::Fault);
        }
        let count = self.input.next_count(buf.len());
        self.devices.take_input(self.input.front(count))?;
        self.input.take(buf, count);
        Ok(count)
    }
}

impl Host for MemHost {
    ghost use Rattle.hs_memhost.specs.Memory.{calls_of, failing_of, files_in, history_in, output_in, standing_in};
    ghost use Rattle.hs_memhost.specs.Files.{contents_of};
    ghost use Rattle.hs_memhost.specs.Left.{may_be_left};
    ghost use Rattle.hs_host.specs.Moments.{Passes, IsStill, IsWritten, IsCut, IsSyncing, IsPrinted};
    ghost use Rattle.hs_memhost.specs.Reading.{takes_next};

    ghost written = { output_in };

    ghost history = { history_in };

    ghost output_faults = { λ h. h.output_faults };

    ghost files = { files_in };

    ghost standing = { standing_in };

    ghost disk_faults = { λ h. h.disk_faults };

    ghost reading_keeps_output = { λ a b read. (ap (λ k. k.out) read.kept, ap (λ k. k.output_faults) read.kept) };

    ghost output_now = { λ h told. refl };

    ghost read_may_be_left = { λ h told honest file. may_be_left (contents_of h.devices.first) h.devices.calls.items file };

    ghost reading_passes = { λ a b read told. read.read.moments };

    ghost reading_takes = { λ a b read told. read.read.taken };

    ghost reads_moment = { λ a b bytes told one made. takes_next (history_in a) (history_in b) bytes one.moment made };

    ghost reads_asked = { λ a b bytes told one. one.moment };

    ghost reading_keeps_files = { λ a b read. (ap (λ k. k.files) read.kept, ap (λ k. k.standing) read.kept, ap (λ k. k.disk_faults) read.kept) };

    fn write_output(&mut self, bytes: &[u8]) -> Result<usize, HostFault>
        ensures bound { WritesAtMost result bytes.now }
        ensures output { AddsOutput (output_in self.old) (output_in self.new) bytes.now result }
        ensures moments { Passes (IsPrinted (history_in self.old).now bytes.now) result (history_in self.old) (history_in self.new) }
        ensures cause { HasOutputCause self.old.output_faults self.new.output_faults bytes.now result }
        ensures input { left_of self.new.input ≡ left_of self.old.input }
        ensures input_faults { self.new.input_faults ≡ self.old.input_faults }
        ensures files { files_in self.new ≡ files_in self.old }
        ensures standing { standing_in self.new ≡ standing_in self.old }
        ensures disk_faults { self.new.disk_faults ≡ self.old.disk_faults }
        ensures fault { IsErrOf result HostFault.Fault → Contains (failing_of self.old) (calls_of self.old) }
        ensures listed { Contains (failing_of self.old) (calls_of self.old) → IsErrOf result HostFault.Fault ⊎ IsErrOf result HostFault.NoMemory }
        ensures calls { calls_of self.new ≡ min (calls_of self.old + 1) (2 ^ 64 - 1) }
        ensures failing { failing_of self.new ≡ failing_of self.old }
    {
        if self.fails_now() {
            self.devices.push_output(&[])?;
            self.output_faults = self.output_faults.saturating_add(1);
            return Err(HostFault::Fault);
        }
        self.devices.push_output(bytes)?;
        Ok(bytes.len())
    }

    fn mount(&mut self, name: &str) -> Result<(), MountFault>
        ensures standing { standing_in self.new ≡ mounted name.now result (standing_in self.old) }
        ensures foreign { IsErrOf result MountFault.Foreign → IsForeign (standing_in self.old) }
        ensures own { OnOk result (IsForeign (standing_in self.old) → ⊥) }
        ensures files { files_in self.new ≡ files_in self.old }
        ensures history { history_in self.new ≡ history_in self.old }
        ensures cause { HasMountCause self.old.disk_faults self.new.disk_faults result }
        ensures input { left_of self.new.input ≡ left_of self.old.input }
        ensures input_faults { self.new.input_faults ≡ self.old.input_faults }
        ensures output { output_in self.new ≡ output_in self.old }
        ensures output_faults { self.new.output_faults ≡ self.old.output_faults }

        // Want of memory for the name comes before all others.
        ensures fault { IsErrOf result MountFault.Fault → Contains (failing_of self.old) (calls_of self.old) }
        ensures listed { Contains (failing_of self.old) (calls_of self.old) → IsErrOf result MountFault.Fault ⊎ IsErrOf result MountFault.NoMemory }
        ensures calls { calls_of self.new ≡ min (calls_of self.old + 1) (2 ^ 64 - 1) }
        ensures failing { failing_of self.new ≡ failing_of self.old }
    {
        let fails = self.fails_now();
        if self.mounting.set_name(name).is_err() {
            return Err(MountFault::NoMemory);
        }
        if fails {
            self.count_disk_fault();
            return Err(MountFault::Fault);
        }
        if self.is_foreign {
            return Err(MountFault::Foreign);
        }
        self.mounting.set_open();
        Ok(())
    }

    fn len(&mut self, file: FileKind) -> Result<u64, HostFault>
        ensures length { IfOk result (λ n. n ≡ length (of (files_in self.new) file)) }
        ensures files { files_in self.new ≡ files_in self.old }
        ensures moments { Passes (IsStill (history_in self.old).now) result (history_in self.old) (history_in self.new) }
        ensures cause { HasCause self.old.disk_faults self.new.disk_faults result }
        ensures standing { standing_in self.new ≡ standing_in self.old }
        ensures input { left_of self.new.input ≡ left_of self.old.input }
        ensures input_faults { self.new.input_faults ≡ self.old.input_faults }
        ensures output { output_in self.new ≡ output_in self.old }
        ensures output_faults { self.new.output_faults ≡ self.old.output_faults }
        ensures fault { IsErrOf result HostFault.Fault → Contains (failing_of self.old) (calls_of self.old) }
        ensures listed { Contains (failing_of self.old) (calls_of self.old) → IsErrOf result HostFault.Fault ⊎ IsErrOf result HostFault.NoMemory }
        ensures calls { calls_of self.new ≡ min (calls_of self.old + 1) (2 ^ 64 - 1) }
        ensures failing { failing_of self.new ≡ failing_of self.old }
    {
        if self.fails_now() {
            self.devices.look()?;
            self.count_disk_fault();
            return Err(HostFault::Fault);
        }
        self.devices.look()?;
        Ok(self.devices.get(file).len() as u64)
    }

    fn read(&mut self, file: FileKind, at: u64, buf: &mut [u8]) -> Result<(), HostFault>
        requires { at + length buf.old ≤ length (of (files_in self.old) file) }
        ensures bytes { OnOk result (buf.new ≡ piece at (length buf.new) (of (files_in self.new) file)) }
        ensures buffer { OnErr result (buf.new ≡ buf.old) }
        ensures files { files_in self.new ≡ files_in self.old }
        ensures moments { Passes (IsStill (history_in self.old).now) result (history_in self.old) (history_in self.new) }
        ensures cause { HasCause self.old.disk_faults self.new.disk_faults result }
        ensures standing { standing_in self.new ≡ standing_in self.old }
        ensures input { left_of self.new.input ≡ left_of self.old.input }
        ensures input_faults { self.new.input_faults ≡ self.old.input_faults }
        ensures output { output_in self.new ≡ output_in self.old }
        ensures output_faults { self.new.output_faults ≡ self.old.output_faults }
        ensures fault { IsErrOf result HostFault.Fault → Contains (failing_of self.old) (calls_of self.old) }
        ensures listed { Contains (failing_of self.old) (calls_of self.old) → IsErrOf result HostFault.Fault ⊎ IsErrOf result HostFault.NoMemory }
        ensures calls { calls_of self.new ≡ min (calls_of self.old + 1) (2 ^ 64 - 1) }
        ensures failing { failing_of self.new ≡ failing_of self.old }
    {
        if self.fails_now() {
            self.devices.look()?;
            self.count_disk_fault();
            return Err(HostFault::Fault);
        }
        self.devices.look()?;
        self.devices.read(file, at, buf);
        Ok(())
    }

    fn write(&mut self, file: FileKind, at: u64, bytes: &[u8]) -> Result<(), HostFault>
        requires { at ≤ length (of (files_in self.old) file) }
        ensures room { OnOk result (at + length bytes.now ≤ 2 ^ 62) }
        ensures ok { OnOk result (files_in self.new ≡ with_ (files_in self.old) file (overwrite (of (files_in self.old) file) at bytes.now)) }
        ensures err { OnErr result (files_in self.new ≡ files_in self.old) }
        ensures moments { Passes (IsWritten (history_in self.old).now file at (length bytes.now)) result (history_in self.old) (history_in self.new) }
        ensures cause { HasCause self.old.disk_faults self.new.disk_faults result }
        ensures standing { standing_in self.new ≡ standing_in self.old }
        ensures input { left_of self.new.input ≡ left_of self.old.input }
        ensures input_faults { self.new.input_faults ≡ self.old.input_faults }
        ensures output { output_in self.new ≡ output_in self.old }
        ensures output_faults { self.new.output_faults ≡ self.old.output_faults }
        ensures fault { IsErrOf result HostFault.Fault → Contains (failing_of self.old) (calls_of self.old) }
        ensures listed { Contains (failing_of self.old) (calls_of self.old) → IsErrOf result HostFault.Fault ⊎ IsErrOf result HostFault.NoMemory }
        ensures calls { calls_of self.new ≡ min (calls_of self.old + 1) (2 ^ 64 - 1) }
        ensures failing { failing_of self.new ≡ failing_of self.old }
    {
        if self.fails_now() {
            self.devices.fail_write(file, at, bytes.len())?;
            self.count_disk_fault();
            return Err(HostFault::Fault);
        }
        self.devices.write(file, at, bytes)
    }

    fn cut(&mut self, file: FileKind, len: u64) -> Result<(), HostFault>
        ensures ok { OnOk result (files_in self.new ≡ with_ (files_in self.old) file (take len (of (files_in self.old) file))) }
        ensures err { OnErr result (files_in self.new ≡ files_in self.old) }
        ensures moments { Passes (IsCut (history_in self.old).now file len) result (history_in self.old) (history_in self.new) }
        ensures cause { HasCause self.old.disk_faults self.new.disk_faults result }
        ensures standing { standing_in self.new ≡ standing_in self.old }
        ensures input { left_of self.new.input ≡ left_of self.old.input }
        ensures input_faults { self.new.input_faults ≡ self.old.input_faults }
        ensures output { output_in self.new ≡ output_in self.old }
        ensures output_faults { self.new.output_faults ≡ self.old.output_faults }
        ensures fault { IsErrOf result HostFault.Fault → Contains (failing_of self.old) (calls_of self.old) }
        ensures listed { Contains (failing_of self.old) (calls_of self.old) → IsErrOf result HostFault.Fault ⊎ IsErrOf result HostFault.NoMemory }
        ensures calls { calls_of self.new ≡ min (calls_of self.old + 1) (2 ^ 64 - 1) }
        ensures failing { failing_of self.new ≡ failing_of self.old }
    {
        if self.fails_now() {
            self.devices.fail_cut(file, len)?;
            self.count_disk_fault();
            return Err(HostFault::Fault);
        }
        self.devices.cut(file, len)
    }

    fn sync(&mut self, file: FileKind) -> Result<(), HostFault>
        ensures files { files_in self.new ≡ files_in self.old }
        ensures moments { Passes (IsSyncing (history_in self.old).now file (of (files_in self.old) file) result) result (history_in self.old) (history_in self.new) }
        ensures cause { HasCause self.old.disk_faults self.new.disk_faults result }
        ensures standing { standing_in self.new ≡ standing_in self.old }
        ensures input { left_of self.new.input ≡ left_of self.old.input }
        ensures input_faults { self.new.input_faults ≡ self.old.input_faults }
        ensures output { output_in self.new ≡ output_in self.old }
        ensures output_faults { self.new.output_faults ≡ self.old.output_faults }
        ensures fault { IsErrOf result HostFault.Fault → Contains (failing_of self.old) (calls_of self.old) }
        ensures listed { Contains (failing_of self.old) (calls_of self.old) → IsErrOf result HostFault.Fault ⊎ IsErrOf result HostFault.NoMemory }
        ensures calls { calls_of self.new ≡ min (calls_of self.old + 1) (2 ^ 64 - 1) }
        ensures failing { failing_of self.new ≡ failing_of self.old }
    {
        if self.fails_now() {
            self.devices.look()?;
            self.count_disk_fault();
            return Err(HostFault::Fault);
        }
        self.devices.sync(file)
    }
}
