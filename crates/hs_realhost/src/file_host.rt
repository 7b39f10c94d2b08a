// The host of a program: standard input, standard output, and files.
ghost use Rattle.std.specs.Prelude.{◌≡◌, [], ◌<◌, is_some, string_bytes, IfOk, Ok, None, true, false, refl};
ghost use Rattle.std.specs.Option.{option_map};
ghost use Rattle.std.proofs.Common.{◌∙◌};
ghost use Rattle.hs_host.specs.Host.{HasCause};
ghost use Rattle.hs_realhost.specs.Standing.{standing_of, no_files, no_history};

use crate::database_files::{DatabaseFiles, OpenFault};
use crate::reason::{Failure, Place, Reason};
use crate::streams::{read_from, write_to};
use hs_host::{FileKind, Host, HostFault, MountFault, Source};
use std::alloc::Global;
use std::fs::File;
use std::io;
use std::io::{Read, Write};
use std::rt::Files;

/// A reader for the input, a writer for the output, and the files of a database once it is mounted.
///
/// `Foreign` is answered where `name.properties` stands beside the files, and where `name.log` is a file that isn't empty
/// and none of the other four is there. `mount` answers `Fault` also where another host has these files, and holds them
/// for this host alone as long as it lives. A call on a file answers `Fault` where the system refuses it, and for a write
/// that would make a file longer than 2^62 bytes, or than the process is allowed. Once a `sync` has failed, each later one
/// answers `Fault` too. A call that a signal interrupts is made again.
#[derive(Drop)]
pub struct FileHost<'a, F: Files<File = File>, R: Read + Drop, W: Write + Drop> {
    alloc: Global,
    rt: &'a F,
    reader: R,
    writer: W,
    name: Option<String>,
    files: Option<DatabaseFiles>,
    // The system may tell of bytes that it couldn't bring to the disk only once, so no later sync is believed.
    has_failed_sync: bool,
    input_faults: u64,
    output_faults: u64,
    disk_faults: u64,
    // The newest call of each device that failed.
    input_failure: Option<Failure>,
    output_failure: Option<Failure>,
    disk_failure: Option<Failure>,
    // The file by which the files are another program's.
    foreign: Option<Place>,
    ghost input_told: { 0 < input_faults → is_some input_failure ≡ true },
    ghost output_told: { 0 < output_faults → is_some output_failure ≡ true },
    ghost disk_told: { 0 < disk_faults → is_some disk_failure ≡ true },
}

impl<'a, F: Files<File = File>, R: Read + Drop, W: Write + Drop> FileHost<'a, F, R, W> {
    /// A host without a name. Nothing has failed yet, and no file is open.
    pub fn new(alloc: Global, rt: &'a F, reader: R, writer: W) -> FileHost<'a, F, R, W>
        ensures standing { ⟦<FileHost<'a, F, R, W> as Host>⟧.standing result ≡ standing_of None false }
        ensures input_faults { ⟦<FileHost<'a, F, R, W> as Source>⟧.input_faults result ≡ 0 }
        ensures output_faults { ⟦<FileHost<'a, F, R, W> as Host>⟧.output_faults result ≡ 0 }
        ensures disk_faults { ⟦<FileHost<'a, F, R, W> as Host>⟧.disk_faults result ≡ 0 }
    {
        FileHost {
            alloc,
            rt,
            reader,
            writer,
            name: None,
            files: None,
            has_failed_sync: false,
            input_faults: 0,
            output_faults: 0,
            disk_faults: 0,
            input_failure: None,
            output_failure: None,
            disk_failure: None,
            foreign: None,
        }
    }

    /// Why the newest call that failed of the input did, where one has.
    pub fn input_reason(&self) -> Option<Reason<'_>>
        ensures { 0 < ⟦<FileHost<'a, F, R, W> as Source>⟧.input_faults self.now → is_some result ≡ true }
    {
        let failure = self.input_failure?;
        Some(Reason::new("", failure))
    }

    /// Why the newest call that failed of the output did, where one has.
    pub fn output_reason(&self) -> Option<Reason<'_>>
        ensures { 0 < ⟦<FileHost<'a, F, R, W> as Host>⟧.output_faults self.now → is_some result ≡ true }
    {
        let failure = self.output_failure?;
        Some(Reason::new("", failure))
    }

    /// Why the newest call that failed of the files did, where one has, with the file's name.
    pub fn disk_reason(&self) -> Option<Reason<'_>>
        ensures { 0 < ⟦<FileHost<'a, F, R, W> as Host>⟧.disk_faults self.now → is_some result ≡ true }
    {
        let failure = self.disk_failure?;
        Some(Reason::new(self.name(), failure))
    }

    /// The file by which `mount` saw that the files are another program's, without the name of the database.
    pub fn foreign_ending(&self) -> &'static str {
        match self.foreign {
            Some(place) => place.ending(),
            None => "",
        }
    }

    /// The name of the database, and nothing before it is mounted.
    pub fn name(&self) -> &str {
        match &self.name {
            Some(name) => name.as_str(),
            None => "",
        }
    }
}

// Counts a call that failed, and keeps why it did.
fn counted<T>(
    faults: &mut u64,
    failure: &mut Option<Failure>,
    place: Place,
    outcome: io::Result<T>,
) -> Result<T, HostFault>
    ensures ok { IfOk result (λ x. outcome ≡ Ok x) }
    ensures cause { HasCause faults.old faults.new result }
    ensures told { (0 < faults.old → is_some failure.old ≡ true) → 0 < faults.new → is_some failure.new ≡ true }
{
    match outcome {
        Ok(x) => Ok(x),
        Err(error) => {
            *faults = faults.saturating_add(1);
            *failure = Some(Failure { place, error });
            Err(HostFault::Fault)
        }
    }
}

impl<'a, F: Files<File = File>, R: Read + Drop, W: Write + Drop> Source for FileHost<'a, F, R, W> {
    ghost tells = { ⊥ };

    ghost unread = { λ h. [] };

    ghost input_faults = { λ h. h.input_faults };

    ghost only_input = { λ a b. (b.output_faults ≡ a.output_faults) × (standing_of (option_map string_bytes b.name) (is_some b.files) ≡ standing_of (option_map string_bytes a.name) (is_some a.files)) × (b.disk_faults ≡ a.disk_faults) };

    ghost reads = { λ a b bytes. Unit {0} };

    ghost makes_moment = { λ a b. Unit {0} };

    ghost nothing_read = { λ h. (refl, refl, refl) };

    ghost read_on = { λ a b c ab bc. (bc.0 ∙ ab.0, bc.1 ∙ ab.1, bc.2 ∙ ab.2) };

    ghost reads_unread = { λ a b bytes told read. absurd told };

    fn read_input(&mut self, buf: &mut [u8]) -> Result<usize, HostFault> {
        let outcome = read_from(&mut self.reader, buf);
        counted(
            &mut self.input_faults,
            &mut self.input_failure,
            Place::Input,
            outcome,
        )
    }
}

impl<'a, F: Files<File = File>, R: Read + Drop, W: Write + Drop> Host for FileHost<'a, F, R, W> {
    ghost written = { λ h. [] };

    ghost output_faults = { λ h. h.output_faults };

    ghost files = { λ h. no_files };

    ghost history = { λ h. no_history };

    ghost standing = { λ h. standing_of (option_map string_bytes h.name) (is_some h.files) };

    ghost disk_faults = { λ h. h.disk_faults };

    ghost output_now = { λ h told. refl };

    ghost read_may_be_left = { λ h told honest file. absurd told };

    ghost reading_passes = { λ a b read told. absurd told };

    ghost reading_takes = { λ a b read told. absurd told };

    ghost reads_moment = { λ a b bytes told read made. absurd told };

    ghost reads_asked = { λ a b bytes told read. absurd told };

    ghost reading_keeps_output = { λ a b read. (refl, read.0) };

    ghost reading_keeps_files = { λ a b read. (refl, read.1, read.2) };

    fn write_output(&mut self, bytes: &[u8]) -> Result<usize, HostFault> {
        let outcome = write_to(&mut self.writer, bytes);
        let taken = counted(
            &mut self.output_faults,
            &mut self.output_failure,
            Place::Output,
            outcome,
        )?;
        if taken == 0 && !bytes.is_empty() {
            self.output_faults = self.output_faults.saturating_add(1);
            self.output_failure = Some(Failure {
                place: Place::Output,
                error: io::Error::new(io::ErrorKind::WriteZero, "took nothing"),
            });
        }
        Ok(taken)
    }

    fn mount(&mut self, name: &str) -> Result<(), MountFault> {
        let Ok(kept) = String::from_str(self.alloc, name) else {
            return Err(MountFault::NoMemory);
        };
        match DatabaseFiles::open(self.alloc, self.rt, name) {
            Ok(files) => {
                self.name = Some(kept);
                self.files = Some(files);
                Ok(())
            }
            Err(OpenFault::Foreign(place)) => {
                self.name = Some(kept);
                self.foreign = Some(place);
                Err(MountFault::Foreign)
            }
            Err(OpenFault::Failed(failure)) => {
                self.name = Some(kept);
                self.disk_faults = self.disk_faults.saturating_add(1);
                self.disk_failure = Some(failure);
                Err(MountFault::Fault)
            }
            Err(OpenFault::NoMemory) => Err(MountFault::NoMemory),
        }
    }

    fn len(&mut self, file: FileKind) -> Result<u64, HostFault> {
        let outcome = self.files.as_ref().unwrap().len(file);
        counted(
            &mut self.disk_faults,
            &mut self.disk_failure,
            Place::File(file),
            outcome,
        )
    }

    fn read(&mut self, file: FileKind, at: u64, buf: &mut [u8]) -> Result<(), HostFault> {
        let outcome = self.files.as_ref().unwrap().read(file, at, buf);
        counted(
            &mut self.disk_faults,
            &mut self.disk_failure,
            Place::File(file),
            outcome,
        )
    }

    fn write(&mut self, file: FileKind, at: u64, bytes: &[u8]) -> Result<(), HostFault> {
        let outcome = self.files.as_ref().unwrap().write(file, at, bytes);
        counted(
            &mut self.disk_faults,
            &mut self.disk_failure,
            Place::File(file),
            outcome,
        )
    }

    fn cut(&mut self, file: FileKind, len: u64) -> Result<(), HostFault> {
        let outcome = self.files.as_ref().unwrap().cut(file, len);
        counted(
            &mut self.disk_faults,
            &mut self.disk_failure,
            Place::File(file),
            outcome,
        )
    }

    fn sync(&mut self, file: FileKind) -> Result<(), HostFault> {
        let outcome = if self.has_failed_sync {
            Err(io::Error::from(io::ErrorKind::Other))
        } else {
            self.files.as_ref().unwrap().sync(file)
        };
        self.has_failed_sync = outcome.is_err();
        counted(
            &mut self.disk_faults,
            &mut self.disk_failure,
            Place::File(file),
            outcome,
        )
    }
}
