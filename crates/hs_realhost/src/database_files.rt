// The five files of a database, on a disk.
ghost use Rattle.std.specs.Prelude.{◌+◌, ◌^◌, ◌≤◌, length, OnOk};

use crate::reason::{Failure, Place};
use hs_host::FileKind;
use std::alloc::{AllocError, Global};
use std::fs::{File, OpenOptions, TryLockError, metadata, symlink_metadata};
use std::io;
use std::io::{ErrorKind, Read};
use std::os::unix::fs::FileExt;
use std::rt::Files;

// The greatest length of a file.
const MOST_BYTES: u64 = 1 << 62;

/// Why the files of a database were not opened.
#[derive(Clone, Copy)]
pub enum OpenFault {
    /// The files are those of another program, which this one shows.
    Foreign(Place),
    /// A call failed.
    Failed(Failure),
    /// A path can't be built.
    NoMemory,
}

/// The open files of a database.
#[derive(Drop)]
pub struct DatabaseFiles {
    script0: File,
    script1: File,
    log: File,
    data_file: File,
    backup: File,
    // The greatest length of a file, as the process was allowed when they were opened.
    most_bytes: u64,
    ghost most: { most_bytes ≤ 2 ^ 62 },
}

impl DatabaseFiles {
    /// Opens the five files of the database `name`, and makes missing ones empty.
    ///
    /// `Foreign` where `name.properties` stands there, as a file or as an entry of that name that leads nowhere, or where
    /// `name.log` is a file that isn't empty and none of the other four is there: then no file is made or touched.
    /// `NoMemory` where a path can't be built. Every other failure is `Failed`, also that a name ends in `/` or its last
    /// part is `.` or `..`, that one of the five is a link that leads nowhere, and that another has the lock of `name.log`:
    /// then no file but that one is made.
    pub fn open<R: Files<File = File>>(
        alloc: Global,
        rt: &R,
        name: &str,
    ) -> Result<DatabaseFiles, OpenFault> {
        if names_a_folder(name) {
            return Err(failed(
                Place::Name,
                io::Error::new(ErrorKind::InvalidInput, "is the name of a folder"),
            ));
        }
        look_for_foreign(alloc, rt, name)?;
        let folder = folder_of(name);
        // A file that is opened while a standard stream is closed takes its place and its bytes. So the folder
        // holds the places of the three streams meanwhile.
        let _input = open_folder(rt, folder)?;
        let _output = open_folder(rt, folder)?;
        let _errors = open_folder(rt, folder)?;
        // The lock lasts as long as this handle of the log. Without it no other file is made.
        let log = open_file(alloc, rt, name, FileKind::Log)?;
        lock(&log)?;
        let files = DatabaseFiles {
            script0: open_file(alloc, rt, name, FileKind::Script0)?,
            script1: open_file(alloc, rt, name, FileKind::Script1)?,
            log,
            data_file: open_file(alloc, rt, name, FileKind::Data)?,
            backup: open_file(alloc, rt, name, FileKind::Backup)?,
            most_bytes: most_bytes(rt),
        };
        // The entries of files that were made are to be found after a crash.
        match open_folder(rt, folder)?.sync_all() {
            Ok(()) => Ok(files),
            Err(error) => Err(failed(Place::Name, error)),
        }
    }

    fn get(&self, file: FileKind) -> &File {
        match file {
            FileKind::Script0 => &self.script0,
            FileKind::Script1 => &self.script1,
            FileKind::Log => &self.log,
            FileKind::Data => &self.data_file,
            FileKind::Backup => &self.backup,
        }
    }

    /// The length of a file in bytes.
    pub fn len(&self, file: FileKind) -> io::Result<u64> {
        Ok(self.get(file).metadata()?.len())
    }

    /// Fills `buf` with the bytes of a file from the place `at` on. Where there are fewer it fails.
    pub fn read(&self, file: FileKind, at: u64, buf: &mut [u8]) -> io::Result<()> {
        self.get(file).read_exact_at(buf, at)
    }

    /// Writes all of `bytes` into a file from the place `at` on. Where the file would get longer than 2^62 bytes, or
    /// than the process was allowed when the files were opened, it fails and writes nothing.
    pub fn write(&self, file: FileKind, at: u64, bytes: &[u8]) -> io::Result<()>
        ensures room { OnOk result (at + length bytes.now ≤ 2 ^ 62) }
    {
        if at.saturating_add(bytes.len() as u64) > self.most_bytes {
            return Err(io::Error::new(ErrorKind::FileTooLarge, "File too large"));
        }
        self.get(file).write_all_at(bytes, at)
    }

    /// Cuts a file to its first `len` bytes.
    pub fn cut(&self, file: FileKind, len: u64) -> io::Result<()> {
        self.get(file).set_len(len)
    }

    /// Brings the bytes and the length of a file to the disk.
    pub fn sync(&self, file: FileKind) -> io::Result<()> {
        self.get(file).sync_data()
    }
}

// Whether a name is that of a folder, beside which its files would stand under names of dots.
fn names_a_folder(name: &str) -> bool {
    let last = match name.rsplit_once('/') {
        None => name,
        Some((_, last)) => last,
    };
    last.is_empty() || last == "." || last == ".."
}

// The greatest length of a file: 2^62, or what the process is allowed (`ulimit -f`). A write beyond the latter would end
// the process by a signal.
fn most_bytes<R: Files<File = File>>(rt: &R) -> u64
    ensures { result ≤ 2 ^ 62 }
{
    let mut text = [0; 4096];
    let Ok(mut limits) = File::open(rt, "/proc/self/limits") else {
        return MOST_BYTES;
    };
    let Ok(count) = limits.read(&mut text) else {
        return MOST_BYTES;
    };
    allowed_by(&text[..count]).min(MOST_BYTES)
}

/// How long a file may be by what Linux tells of the limits of a process. Where no number is told, any length.
pub fn allowed_by(limits: &[u8]) -> u64 {
    let Ok(text) = std::str::from_utf8(limits) else {
        return u64::MAX;
    };
    for line in text.lines() {
        if let Some(limit) = line.strip_prefix("Max file size") {
            return first_number(limit);
        }
    }
    u64::MAX
}

// The number with which this begins behind white space, and the greatest one where there is none.
fn first_number(text: &str) -> u64 {
    match text.split_whitespace().next() {
        Some(word) => word.parse().unwrap_or(u64::MAX),
        None => u64::MAX,
    }
}

fn failed(place: Place, error: io::Error) -> OpenFault {
    OpenFault::Failed(Failure { place, error })
}

fn path_of(alloc: Global, name: &str, ending: &str) -> Result<String, AllocError> {
    let mut path = String::from_str(alloc, name)?;
    path.push_str(ending)?;
    Ok(path)
}

// What stands in the place of a file.
#[derive(Clone, Copy, PartialEq, Eq)]
enum Found {
    Nothing,
    // A file that isn't empty.
    Bytes,
    // Any other entry.
    Entry,
}

// What stands in the place of a file. A link that leads nowhere is an error.
fn found_at(alloc: Global, rt: &impl Files, name: &str, place: Place) -> Result<Found, OpenFault> {
    let Ok(path) = path_of(alloc, name, place.ending()) else {
        return Err(OpenFault::NoMemory);
    };
    let entry = match symlink_metadata(rt, path.as_str()) {
        Ok(entry) => entry,
        Err(error) if error.kind() == ErrorKind::NotFound => return Ok(Found::Nothing),
        Err(error) => return Err(failed(place, error)),
    };
    if !entry.is_symlink() {
        return Ok(bytes_or_entry(entry.is_file(), entry.len()));
    }
    match metadata(rt, path.as_str()) {
        Ok(there) => Ok(bytes_or_entry(there.is_file(), there.len())),
        Err(error) if error.kind() == ErrorKind::NotFound => Err(failed(
            place,
            io::Error::new(ErrorKind::NotFound, "is a link that leads nowhere"),
        )),
        Err(error) => Err(failed(place, error)),
    }
}

fn bytes_or_entry(is_file: bool, len: u64) -> Found {
    if is_file && len > 0 {
        Found::Bytes
    } else {
        Found::Entry
    }
}

// Fails where the files are those of another program.
fn look_for_foreign(alloc: Global, rt: &impl Files, name: &str) -> Result<(), OpenFault> {
    look_for_properties(alloc, rt, name)?;
    // Each run makes the five files together, and writes to none before they are there.
    let log = found_at(alloc, rt, name, Place::File(FileKind::Log))?;
    let script0 = found_at(alloc, rt, name, Place::File(FileKind::Script0))?;
    let script1 = found_at(alloc, rt, name, Place::File(FileKind::Script1))?;
    let data = found_at(alloc, rt, name, Place::File(FileKind::Data))?;
    let backup = found_at(alloc, rt, name, Place::File(FileKind::Backup))?;
    let is_alone = [script0, script1, data, backup]
        .iter()
        .all(|found| *found == Found::Nothing);
    if log == Found::Bytes && is_alone {
        return Err(OpenFault::Foreign(Place::File(FileKind::Log)));
    }
    Ok(())
}

// Fails unless there is no entry `name.properties`.
fn look_for_properties(alloc: Global, rt: &impl Files, name: &str) -> Result<(), OpenFault> {
    let Ok(path) = path_of(alloc, name, Place::Properties.ending()) else {
        return Err(OpenFault::NoMemory);
    };
    match symlink_metadata(rt, path.as_str()) {
        Ok(_) => Err(OpenFault::Foreign(Place::Properties)),
        Err(error) if error.kind() == ErrorKind::NotFound => Ok(()),
        Err(error) => Err(failed(Place::Properties, error)),
    }
}

// Opens one of the files to read and to write, and makes it if it is missing.
fn open_file<R: Files<File = File>>(
    alloc: Global,
    rt: &R,
    name: &str,
    file: FileKind,
) -> Result<File, OpenFault> {
    let place = Place::File(file);
    let Ok(path) = path_of(alloc, name, place.ending()) else {
        return Err(OpenFault::NoMemory);
    };
    let opened = OpenOptions::new()
        .read(true)
        .write(true)
        .create(true)
        .open(rt, path.as_str());
    match opened {
        Ok(file) => Ok(file),
        Err(error) => Err(failed(place, error)),
    }
}

// Takes the lock of the log, and doesn't wait for another that has it.
fn lock(log: &File) -> Result<(), OpenFault> {
    let error = match log.try_lock() {
        Ok(()) => return Ok(()),
        Err(TryLockError::WouldBlock) => {
            io::Error::new(ErrorKind::ResourceBusy, "is in use by another process")
        }
        Err(TryLockError::Error(error)) => error,
    };
    Err(failed(Place::File(FileKind::Log), error))
}

// The folder in which the files of a database stand.
fn folder_of(name: &str) -> &str {
    match name.rsplit_once('/') {
        None => ".",
        Some(("", _)) => "/",
        Some((folder, _)) => folder,
    }
}

fn open_folder<R: Files<File = File>>(rt: &R, folder: &str) -> Result<File, OpenFault> {
    match File::open(rt, folder) {
        Ok(folder) => Ok(folder),
        Err(error) => Err(failed(Place::Name, error)),
    }
}
