// Five files in memory, as a host keeps them.
ghost use Rattle.std.specs.Prelude.{◌≡◌, ◌+◌, ◌^◌, ◌≤◌, length, vec_len, take, IfOk, OnOk, OnErr, IsErrOf};
ghost use Rattle.hs_host.specs.Files.{of, with_, overwrite, piece};

use crate::images::Images;
use hs_host::{FileKind, HostFault};
use std::alloc::{AllocError, Global};

// The greatest length of a file.
const MOST_BYTES: u64 = 1 << 62;

/// The bytes of five files. A write changes what it covers, and no more is copied.
#[derive(Drop)]
pub struct Files {
    script0: Vec<u8>,
    script1: Vec<u8>,
    log: Vec<u8>,
    pages: Vec<u8>,
    backup: Vec<u8>,
}

impl Files {
    ghost use Rattle.hs_memhost.specs.Images.{files_of};
    ghost use Rattle.hs_memhost.specs.Files.{contents_of};

    /// The same bytes, without taking memory.
    pub fn from_images(images: Images) -> Files
        ensures { contents_of result ≡ files_of images }
    {
        Files {
            script0: images.script0.into_vec(),
            script1: images.script1.into_vec(),
            log: images.log.into_vec(),
            pages: images.pages.into_vec(),
            backup: images.backup.into_vec(),
        }
    }

    pub fn copy(&self, alloc: Global) -> Result<Files, AllocError>
        ensures { IfOk result (λ copied. contents_of copied ≡ contents_of self.now) }
    {
        Ok(Files {
            script0: self.script0.to_vec(alloc)?,
            script1: self.script1.to_vec(alloc)?,
            log: self.log.to_vec(alloc)?,
            pages: self.pages.to_vec(alloc)?,
            backup: self.backup.to_vec(alloc)?,
        })
    }

    /// The bytes of one file.
    pub fn get(&self, file: FileKind) -> &[u8]
        ensures { result.now ≡ of (contents_of self.now) file }
    {
        match file {
            FileKind::Script0 => &self.script0,
            FileKind::Script1 => &self.script1,
            FileKind::Log => &self.log,
            FileKind::Data => &self.pages,
            FileKind::Backup => &self.backup,
        }
    }

    /// Fills `buf` with bytes of a file from the place `at` on, which must be there.
    pub fn read(&self, file: FileKind, at: u64, buf: &mut [u8])
        requires { at + length buf.old ≤ length (of (contents_of self.now) file) }
        ensures { buf.new ≡ piece at (length buf.new) (of (contents_of self.now) file) }
    {
        let behind = &self.get(file)[at as usize..];
        buf.copy_from_slice(&behind[..buf.len()]);
    }

    /// Puts bytes into a file from the place `at` on, which is at most its length. Its only `Err` is
    /// `NoMemory`, also for a file that would get longer than 2^62 bytes, and then nothing is changed.
    pub fn write(&mut self, file: FileKind, at: u64, bytes: &[u8]) -> Result<(), HostFault>
        requires { at ≤ length (of (contents_of self.old) file) }
        ensures room { OnOk result (at + length bytes.now ≤ 2 ^ 62) }
        ensures ok { OnOk result (contents_of self.new ≡ with_ (contents_of self.old) file (overwrite (of (contents_of self.old) file) at bytes.now)) }
        ensures err { OnErr result (contents_of self.new ≡ contents_of self.old) }
        ensures memory { IsErrOf result HostFault.Fault → ⊥ }
    {
        let at = at as usize;
        match file {
            FileKind::Script0 => put(&mut self.script0, at, bytes),
            FileKind::Script1 => put(&mut self.script1, at, bytes),
            FileKind::Log => put(&mut self.log, at, bytes),
            FileKind::Data => put(&mut self.pages, at, bytes),
            FileKind::Backup => put(&mut self.backup, at, bytes),
        }
    }

    /// Cuts a file to its first `len` bytes.
    pub fn cut(&mut self, file: FileKind, len: u64)
        ensures { contents_of self.new ≡ with_ (contents_of self.old) file (take len (of (contents_of self.old) file)) }
    {
        let len = len as usize;
        match file {
            FileKind::Script0 => self.script0.truncate(len),
            FileKind::Script1 => self.script1.truncate(len),
            FileKind::Log => self.log.truncate(len),
            FileKind::Data => self.pages.truncate(len),
            FileKind::Backup => self.backup.truncate(len),
        }
    }
}

// Puts bytes over those from the place `at` on and behind the last. What may want memory comes first.
fn put(file: &mut Vec<u8>, at: usize, bytes: &[u8]) -> Result<(), HostFault>
    requires { at ≤ vec_len file.old }
    ensures room { OnOk result (at + length bytes.now ≤ 2 ^ 62) }
    ensures ok { OnOk result (file.new.items ≡ overwrite file.old.items at bytes.now) }
    ensures err { OnErr result (file.new.items ≡ file.old.items) }
    ensures memory { IsErrOf result HostFault.Fault → ⊥ }
{
    if (at as u64).saturating_add(bytes.len() as u64) > MOST_BYTES {
        return Err(HostFault::NoMemory);
    }
    let covered = bytes.len().min(file.len() - at);
    let (over, behind) = bytes.split_at(covered);
    if file.extend_from_slice(behind).is_err() {
        return Err(HostFault::NoMemory);
    }
    cover(file, at, over);
    Ok(())
}

// Puts bytes over those from the place `at` on.
#[tactic(auto, using(crate::proofs::Overwritten::covered))]
fn cover(file: &mut [u8], at: usize, over: &[u8])
    requires { at + length over.now ≤ length file.old }
    ensures { file.new ≡ overwrite file.old at over.now }
{
    file[at..at + over.len()].copy_from_slice(over);
}
