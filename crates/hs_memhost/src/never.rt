// A host in memory whose devices never fail.
ghost use Rattle.std.specs.Prelude.{◌≡◌, ◌∷◌, [], None, false, true, refl};
ghost use Rattle.std.proofs.Common.{◌∙◌, ap};
ghost use Rattle.hs_memhost.specs.Input.{left_of};
ghost use Rattle.hs_host.specs.Files.{of};

use crate::devices::Devices;
use crate::images::Images;
use crate::input::Input;
use crate::mounting::Mounting;
use hs_host::{FileKind, Host, HostFault, MountFault, Source};
use hs_values::Bytes;
use std::alloc::Global;

/// A host in memory that fails for want of memory alone: its three counts of faults are the constant 0,
/// and its files are never those of another program.
#[derive(Drop)]
pub struct NeverFails {
    input: Input,
    devices: Devices,
    mounting: Mounting,
}

impl NeverFails {
    ghost use Rattle.hs_memhost.specs.Images.{files_of};
    ghost use Rattle.hs_memhost.specs.Replay.{history_of};

    /// A host with this input, these files, all on the disk, no output and no name yet.
    pub fn new(alloc: Global, input: Bytes, files: Images) -> NeverFails
        ensures unread { ⟦<NeverFails as Source>⟧.unread result ≡ input }
        ensures written { ⟦<NeverFails as Host>⟧.written result ≡ [] }
        ensures files { ⟦<NeverFails as Host>⟧.files result ≡ files_of files }
        ensures history { ⟦<NeverFails as Host>⟧.history result ≡ history_of (files_of files) [] }
        ensures standing { ⟦<NeverFails as Host>⟧.standing result ≡ record { name = None; is_open = false; is_foreign = false; is_honest = true } }
    {
        NeverFails {
            input: Input::new(alloc, input),
            devices: Devices::new(alloc, files),
            mounting: Mounting::new(alloc),
        }
    }

    /// The output so far.
    pub fn output(&self) -> &[u8]
        ensures { result.now ≡ ⟦<NeverFails as Host>⟧.written self.now }
    {
        self.devices.output()
    }

    /// The bytes of a file.
    pub fn image(&self, file: FileKind) -> &[u8]
        ensures { result.now ≡ of (⟦<NeverFails as Host>⟧.files self.now) file }
    {
        self.devices.get(file)
    }
}

impl Source for NeverFails {
    ghost use Rattle.hs_memhost.specs.Devices.{history_on};
    ghost use Rattle.hs_memhost.specs.Never.{OnlyInput, IsOneRead};
    ghost use Rattle.hs_memhost.specs.Reading.{reads_none, reads_then};

    ghost tells = { Unit {0} };

    ghost unread = { λ h. left_of h.input };

    ghost input_faults = { λ h. 0 };

    ghost only_input = { OnlyInput };

    ghost nothing_read = { λ h. record { kept = refl; read = reads_none (history_on h.devices) (left_of h.input) } };

    ghost read_on = { λ a b c ab bc. record { kept = bc.kept ∙ ab.kept; read = reads_then (history_on a.devices) (history_on b.devices) (history_on c.devices) (left_of a.input) (left_of b.input) (left_of c.input) ab.read bc.read } };

    ghost reads = { IsOneRead };

    ghost makes_moment = { λ a b. (history_on b.devices).past ≡ (history_on a.devices).now ∷ (history_on a.devices).past };

    ghost reads_unread = { λ a b bytes told one. one.taken };

    fn read_input(&mut self, buf: &mut [u8]) -> Result<usize, HostFault> {
        let count = self.input.next_count(buf.len());
        self.devices.take_input(self.input.front(count))?;
        self.input.take(buf, count);
        Ok(count)
    }
}

impl Host for NeverFails {
    ghost use Rattle.hs_memhost.specs.Devices.{files_on, history_on};
    ghost use Rattle.hs_memhost.specs.Files.{contents_of};
    ghost use Rattle.hs_memhost.specs.Left.{may_be_left};
    ghost use Rattle.hs_memhost.specs.Mounting.{standing_of};
    ghost use Rattle.hs_memhost.specs.Reading.{takes_next};

    ghost written = { λ h. (history_on h.devices).now.out };

    ghost history = { λ h. history_on h.devices };

    ghost output_faults = { λ h. 0 };

    ghost files = { λ h. files_on h.devices };

    ghost standing = { λ h. standing_of h.mounting false };

    ghost disk_faults = { λ h. 0 };

    ghost reading_keeps_output = { λ a b read. (ap (λ k. k.out) read.kept, refl) };

    ghost output_now = { λ h told. refl };

    ghost read_may_be_left = { λ h told honest file. may_be_left (contents_of h.devices.first) h.devices.calls.items file };

    ghost reading_passes = { λ a b read told. read.read.moments };

    ghost reading_takes = { λ a b read told. read.read.taken };

    ghost reads_moment = { λ a b bytes told one made. takes_next (history_on a.devices) (history_on b.devices) bytes one.moment made };

    ghost reads_asked = { λ a b bytes told one. one.moment };

    ghost reading_keeps_files = { λ a b read. (ap (λ k. k.files) read.kept, ap (λ k. k.standing) read.kept, refl) };

    fn write_output(&mut self, bytes: &[u8]) -> Result<usize, HostFault> {
        self.devices.push_output(bytes)?;
        Ok(bytes.len())
    }

    fn mount(&mut self, name: &str) -> Result<(), MountFault> {
        if self.mounting.set_name(name).is_err() {
            return Err(MountFault::NoMemory);
        }
        self.mounting.set_open();
        Ok(())
    }

    fn len(&mut self, file: FileKind) -> Result<u64, HostFault> {
        self.devices.look()?;
        Ok(self.devices.get(file).len() as u64)
    }

    fn read(&mut self, file: FileKind, at: u64, buf: &mut [u8]) -> Result<(), HostFault> {
        self.devices.look()?;
        self.devices.read(file, at, buf);
        Ok(())
    }

    fn write(&mut self, file: FileKind, at: u64, bytes: &[u8]) -> Result<(), HostFault> {
        self.devices.write(file, at, bytes)
    }

    fn cut(&mut self, file: FileKind, len: u64) -> Result<(), HostFault> {
        self.devices.cut(file, len)
    }

    fn sync(&mut self, file: FileKind) -> Result<(), HostFault> {
        self.devices.sync(file)
    }
}
