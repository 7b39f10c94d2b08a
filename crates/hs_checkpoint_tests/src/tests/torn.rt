// A host that is torn: at a call it keeps what a crash leaves of its files, and from then on each call fails.
ghost use Rattle.std.specs.Prelude.{◌≡◌, [], refl, true, IfOk};
ghost use Rattle.std.proofs.Common.{◌∙◌, ap};
ghost use Rattle.hs_host.specs.Host.{HasCause};
ghost use Rattle.hs_checkpoint_tests.specs.Torn.{standing_of, no_files, no_history};

use hs_host::{FileKind, Host, HostFault, MountFault, Source};
use std::alloc::{AllocError, Global};

/// No file of a test is longer.
const MOST_BYTES: u64 = 1_000_000;

/// How a crash fills what is uncertain: with what stood there at the last sync, with what was to be written, or with bytes 1,
/// as long as anything was to be.
#[derive(Clone, Copy, Debug, PartialEq, Eq)]
pub enum Fill {
    Old,
    New,
    Ones,
}

/// A file as it is read, and what the disk has of it.
#[derive(Drop)]
pub struct TornFile {
    pub bytes: Vec<u8>,
    synced: Vec<u8>,
    is_touched: bool,
    low: usize,
    covered: Vec<(usize, usize)>,
}

/// The five files, one after the other as `FileKind` has them.
#[derive(Drop)]
pub struct TornHost {
    alloc: Global,
    files: Vec<TornFile>,
    pub is_open: bool,
    calls: u64,
    crash: u64,
    fill: Fill,
    left: Vec<Vec<u8>>,
    faults: u64,
}

// The place of a file among five.
fn place_of(file: FileKind) -> usize {
    match file {
        FileKind::Script0 => 0,
        FileKind::Script1 => 1,
        FileKind::Log => 2,
        FileKind::Data => 3,
        FileKind::Backup => 4,
    }
}

impl TornFile {
    fn new(alloc: Global, bytes: &[u8]) -> Result<TornFile, AllocError> {
        Ok(TornFile {
            bytes: bytes.to_vec(alloc)?,
            synced: bytes.to_vec(alloc)?,
            is_touched: false,
            low: bytes.len(),
            covered: Vec::new(alloc),
        })
    }

    // Puts bytes from a place on, which is at most the file's length.
    fn write(&mut self, at: usize, bytes: &[u8]) -> Result<(), AllocError> {
        self.is_touched = true;
        self.covered.push((at, bytes.len()))?;
        let mut place = at;
        for byte in bytes {
            match self.bytes.get_mut(place) {
                Some(old) => *old = *byte,
                None => self.bytes.push(*byte)?,
            }
            place = place.saturating_add(1);
        }
        Ok(())
    }

    fn cut(&mut self, len: usize) {
        self.is_touched = true;
        self.low = self.low.min(len);
        self.bytes.truncate(len);
    }

    fn sync(&mut self, alloc: Global) -> Result<(), AllocError> {
        self.synced = self.bytes.as_slice().to_vec(alloc)?;
        self.is_touched = false;
        self.low = self.synced.len();
        self.covered = Vec::new(alloc);
        Ok(())
    }

    // Whether a write since the last sync covered a place.
    fn is_covered(&self, place: usize) -> bool {
        self.covered.iter().any(|range| range.0 <= place && place < range.0.saturating_add(range.1))
    }

    // How long the file is left: at least `low` bytes, and with bytes 1 as far as anything was written.
    fn left_length(&self, fill: Fill) -> usize {
        match fill {
            Fill::Old => self.low,
            Fill::New => self.bytes.len().max(self.low),
            Fill::Ones => {
                let mut most = self.low;
                for range in &self.covered {
                    most = most.max(range.0.saturating_add(range.1));
                }
                most
            }
        }
    }

    // The byte that is left at a place.
    fn left_byte(&self, place: usize, fill: Fill) -> u8 {
        let is_free = place >= self.low || self.is_covered(place);
        if !is_free || fill == Fill::Old {
            return self.synced.get(place).copied().unwrap_or(0);
        }
        match fill {
            Fill::New => self.bytes.get(place).copied().unwrap_or(0),
            _ => 1,
        }
    }

    // What a crash leaves of it.
    fn left(&self, alloc: Global, fill: Fill) -> Result<Vec<u8>, AllocError> {
        if !self.is_touched {
            return self.synced.as_slice().to_vec(alloc);
        }
        let mut left = Vec::new(alloc);
        for place in 0..self.left_length(fill) {
            left.push(self.left_byte(place, fill))?;
        }
        Ok(left)
    }
}

impl TornHost {
    /// A host over these files, all on the disk, that is torn at this call, counted from 0.
    pub fn new(
        alloc: Global,
        files: &[Vec<u8>],
        crash: u64,
        fill: Fill,
    ) -> Result<TornHost, AllocError>
        ensures { IfOk result (λ host. host.is_open ≡ true) }
    {
        let mut torn = Vec::new(alloc);
        for bytes in files {
            torn.push(TornFile::new(alloc, bytes.as_slice())?)?;
        }
        Ok(TornHost {
            alloc,
            files: torn,
            is_open: true,
            calls: 0,
            crash,
            fill,
            left: Vec::new(alloc),
            faults: 0,
        })
    }

    /// How many calls on files were made.
    pub fn calls(&self) -> u64 {
        self.calls
    }

    /// What the crash left of the files, and before it what a read gives.
    pub fn left(&self, alloc: Global) -> Result<Vec<Vec<u8>>, AllocError> {
        let mut all = Vec::new(alloc);
        if self.left.is_empty() {
            for file in &self.files {
                all.push(file.bytes.as_slice().to_vec(alloc)?)?;
            }
        }
        for bytes in &self.left {
            all.push(bytes.as_slice().to_vec(alloc)?)?;
        }
        Ok(all)
    }

    // Begins a call, which fails behind the crash.
    fn begin(&mut self) -> Result<(), HostFault>
        ensures cause { HasCause self.old.faults self.new.faults result }
        ensures open { self.new.is_open ≡ self.old.is_open }
    {
        if self.calls > self.crash {
            self.faults = self.faults.saturating_add(1);
            return Err(HostFault::Fault);
        }
        self.calls = self.calls.saturating_add(1);
        Ok(())
    }

    // Ends a call. That of the crash keeps what is left of the files, and fails.
    fn end(&mut self) -> Result<(), HostFault>
        ensures cause { HasCause self.old.faults self.new.faults result }
        ensures open { self.new.is_open ≡ self.old.is_open }
    {
        if self.calls <= self.crash {
            return Ok(());
        }
        let Ok(left) = left_of(self.alloc, self.files.as_slice(), self.fill) else {
            return Err(HostFault::NoMemory);
        };
        self.left = left;
        self.faults = self.faults.saturating_add(1);
        Err(HostFault::Fault)
    }
}

// What a crash leaves of these files.
fn left_of(alloc: Global, files: &[TornFile], fill: Fill) -> Result<Vec<Vec<u8>>, AllocError> {
    let mut left = Vec::new(alloc);
    for file in files {
        left.push(file.left(alloc, fill)?)?;
    }
    Ok(left)
}

// The bytes of a file from a place on, as many as there is room for.
fn copy_from(bytes: &[u8], at: usize, buf: &mut [u8]) {
    let mut place = at;
    for byte in buf.iter_mut() {
        *byte = bytes.get(place).copied().unwrap_or(0);
        place = place.saturating_add(1);
    }
}

impl Source for TornHost {
    ghost tells = { ⊥ };

    ghost unread = { λ h. [] };

    ghost input_faults = { λ h. 0 };

    ghost only_input = { λ a b. b ≡ a };

    ghost reads = { λ a b bytes. Unit {0} };

    ghost makes_moment = { λ a b. Unit {0} };

    ghost nothing_read = { λ h. refl };

    ghost read_on = { λ a b c ab bc. bc ∙ ab };

    ghost reads_unread = { λ a b bytes told read. absurd told };

    fn read_input(&mut self, _buf: &mut [u8]) -> Result<usize, HostFault> {
        Ok(0)
    }
}

impl Host for TornHost {
    ghost written = { λ h. [] };

    ghost output_faults = { λ h. 0 };

    ghost files = { λ h. no_files };

    ghost history = { λ h. no_history };

    ghost standing = { λ h. standing_of h.is_open };

    ghost disk_faults = { λ h. h.faults };

    ghost output_now = { λ h told. refl };

    ghost read_may_be_left = { λ h told honest file. absurd told };

    ghost reading_passes = { λ a b read told. absurd told };

    ghost reading_takes = { λ a b read told. absurd told };

    ghost reads_moment = { λ a b bytes told read made. absurd told };

    ghost reads_asked = { λ a b bytes told read. absurd told };

    ghost reading_keeps_output = { λ a b read. (refl, refl) };

    ghost reading_keeps_files = { λ a b read. (refl, ap (λ h. standing_of h.is_open) read, ap (λ h. h.faults) read) };

    fn write_output(&mut self, bytes: &[u8]) -> Result<usize, HostFault> {
        Ok(bytes.len())
    }

    fn mount(&mut self, _name: &str) -> Result<(), MountFault> {
        Err(MountFault::NoMemory)
    }

    fn len(&mut self, file: FileKind) -> Result<u64, HostFault> {
        self.begin()?;
        let length = match self.files.get(place_of(file)) {
            Some(torn) => torn.bytes.len() as u64,
            None => 0,
        };
        self.end()?;
        Ok(length)
    }

    fn read(&mut self, file: FileKind, at: u64, buf: &mut [u8]) -> Result<(), HostFault> {
        self.begin()?;
        if let Some(torn) = self.files.get(place_of(file)) {
            copy_from(torn.bytes.as_slice(), at as usize, buf);
        }
        self.end()
    }

    fn write(&mut self, file: FileKind, at: u64, bytes: &[u8]) -> Result<(), HostFault> {
        if at > MOST_BYTES || bytes.len() as u64 > MOST_BYTES {
            return Err(HostFault::NoMemory);
        }
        self.begin()?;
        if let Some(torn) = self.files.get_mut(place_of(file))
            && torn.write(at as usize, bytes).is_err()
        {
            return Err(HostFault::NoMemory);
        }
        self.end()
    }

    fn cut(&mut self, file: FileKind, len: u64) -> Result<(), HostFault> {
        self.begin()?;
        if let Some(torn) = self.files.get_mut(place_of(file)) {
            torn.cut(len as usize);
        }
        self.end()
    }

    // A sync at which the crash comes isn't done.
    fn sync(&mut self, file: FileKind) -> Result<(), HostFault> {
        let alloc = self.alloc;
        self.begin()?;
        self.end()?;
        if let Some(torn) = self.files.get_mut(place_of(file))
            && torn.sync(alloc).is_err()
        {
            return Err(HostFault::NoMemory);
        }
        Ok(())
    }
}
