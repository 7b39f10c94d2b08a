// The files and the output of a host in memory, with the calls that made them.
ghost use Rattle.std.specs.Prelude.{◌≡◌, ℕ, List, ◌+◌, ◌^◌, ◌≤◌, [], ◌∷◌, ◌++◌, length, take, cond, true, IfOk, OnOk, OnErr, IsErrOf};
ghost use Rattle.std.proofs.Props.{props};
ghost use Rattle.hs_host.specs.Files.{Five, of, with_, overwrite, piece};
ghost use Rattle.hs_memhost.specs.Files.{contents_of};
ghost use Rattle.hs_memhost.specs.Images.{files_of};
ghost use Rattle.hs_memhost.specs.Replay.{files_after, history_of};

use crate::call::Call;
use crate::files::Files;
use crate::images::Images;
use hs_host::{FileKind, HostFault};
use hs_values::Bytes;
use std::alloc::Global;

/// The files and the output of a host in memory, and each call that made a moment, from the first on. The files are
/// kept as they were at first, and beside them as they are, once one is changed.
#[derive(Drop)]
pub struct Devices {
    alloc: Global,
    first: Files,
    present: Files,
    is_copied: bool,
    output: Bytes,
    calls: Vec<Call>,
    ghost replayed: { files_after (contents_of first) calls.items ≡ cond is_copied (contents_of present) (contents_of first) } by { Prim.hlevel props },
    ghost told: { (history_of (contents_of first) calls.items).now.out ≡ output } by { Prim.hlevel props },
}

impl Devices {
    ghost use Rattle.hs_host.specs.Moments.{IsStill, IsWritten, IsCut, IsSynced, IsPrinted, IsAsked};
    ghost use Rattle.hs_memhost.specs.Devices.{files_on, history_on, state_on, Keeps};
    ghost use Rattle.hs_memhost.specs.Replay.{State, after_call};

    /// These files, all on the disk, and no output.
    pub fn new(alloc: Global, images: Images) -> Devices
        ensures files { files_on result ≡ files_of images }
        ensures history { history_on result ≡ history_of (files_of images) [] }
    {
        Devices {
            alloc,
            first: Files::from_images(images),
            present: Files::from_images(Images::new(alloc)),
            is_copied: false,
            output: Bytes::new(alloc),
            calls: Vec::new(alloc),
        }
    }

    /// The output so far.
    pub fn output(&self) -> &[u8]
        ensures { result.now ≡ (history_on self.now).now.out }
    {
        self.output.as_slice()
    }

    /// The bytes of one file.
    pub fn get(&self, file: FileKind) -> &[u8]
        ensures { result.now ≡ of (files_on self.now) file }
    {
        if self.is_copied {
            self.present.get(file)
        } else {
            self.first.get(file)
        }
    }

    /// Fills `buf` with bytes of a file from the place `at` on, which must be there.
    pub fn read(&self, file: FileKind, at: u64, buf: &mut [u8])
        requires { at + length buf.old ≤ length (of (files_on self.now) file) }
        ensures { buf.new ≡ piece at (length buf.new) (of (files_on self.now) file) }
    {
        if self.is_copied {
            self.present.read(file, at, buf);
        } else {
            self.first.read(file, at, buf);
        }
    }

    /// Takes bytes as the next output. After an `Err`, which is want of memory, nothing is changed.
    pub fn push_output(&mut self, bytes: &[u8]) -> Result<(), HostFault>
        ensures ok { OnOk result ((history_on self.new).now.out ≡ (history_on self.old).now.out ++ bytes.now) }
        ensures memory { IsErrOf result HostFault.Fault → ⊥ }
        ensures moments { Keeps (IsPrinted (history_on self.old).now bytes.now) result (history_on self.old) (history_on self.new) }
        ensures files { files_on self.new ≡ files_on self.old }
    {
        let kept = copied(self.alloc, bytes)?;
        keep_output(&mut self.calls, &mut self.output, kept, bytes)?;
        Ok(())
    }

    /// Takes bytes of the input. After an `Err`, which is want of memory, nothing is changed.
    pub fn take_input(&mut self, bytes: &[u8]) -> Result<(), HostFault>
        ensures memory { IsErrOf result HostFault.Fault → ⊥ }
        ensures moments { Keeps (IsAsked (history_on self.old).now bytes.now) result (history_on self.old) (history_on self.new) }
        ensures files { files_on self.new ≡ files_on self.old }
        ensures output { (history_on self.new).now.out ≡ (history_on self.old).now.out }
    {
        let bytes = copied(self.alloc, bytes)?;
        self.note(Call::Input { bytes })
    }

    /// Looks at a file, or fails to sync it. After an `Err`, which is want of memory, nothing is changed.
    pub fn look(&mut self) -> Result<(), HostFault>
        ensures memory { IsErrOf result HostFault.Fault → ⊥ }
        ensures moments { Keeps (IsStill (history_on self.old).now) result (history_on self.old) (history_on self.new) }
        ensures files { files_on self.new ≡ files_on self.old }
        ensures output { (history_on self.new).now.out ≡ (history_on self.old).now.out }
    {
        self.note(Call::Look)
    }

    /// Fails to put so many bytes into a file, though some may be left there. After an `Err`, which is want of memory,
    /// nothing is changed.
    pub fn fail_write(&mut self, file: FileKind, at: u64, count: usize) -> Result<(), HostFault>
        ensures memory { IsErrOf result HostFault.Fault → ⊥ }
        ensures moments { Keeps (IsWritten (history_on self.old).now file at count) result (history_on self.old) (history_on self.new) }
        ensures files { files_on self.new ≡ files_on self.old }
        ensures output { (history_on self.new).now.out ≡ (history_on self.old).now.out }
    {
        self.note(Call::FailedWrite { file, at, count })
    }

    /// Fails to cut a file, though it may be left shorter. After an `Err`, which is want of memory, nothing is changed.
    pub fn fail_cut(&mut self, file: FileKind, len: u64) -> Result<(), HostFault>
        ensures memory { IsErrOf result HostFault.Fault → ⊥ }
        ensures moments { Keeps (IsCut (history_on self.old).now file len) result (history_on self.old) (history_on self.new) }
        ensures files { files_on self.new ≡ files_on self.old }
        ensures output { (history_on self.new).now.out ≡ (history_on self.old).now.out }
    {
        self.note(Call::FailedCut { file, len })
    }

    /// Puts bytes into a file from the place `at` on, which is at most its length. Its only `Err` is `NoMemory`, also
    /// for a file that would get longer than 2^62 bytes, and then nothing is changed.
    pub fn write(&mut self, file: FileKind, at: u64, bytes: &[u8]) -> Result<(), HostFault>
        requires { at ≤ length (of (files_on self.old) file) }
        ensures room { OnOk result (at + length bytes.now ≤ 2 ^ 62) }
        ensures ok { OnOk result (files_on self.new ≡ with_ (files_on self.old) file (overwrite (of (files_on self.old) file) at bytes.now)) }
        ensures err { OnErr result (files_on self.new ≡ files_on self.old) }
        ensures memory { IsErrOf result HostFault.Fault → ⊥ }
        ensures moments { Keeps (IsWritten (history_on self.old).now file at (length bytes.now)) result (history_on self.old) (history_on self.new) }
        ensures output { (history_on self.new).now.out ≡ (history_on self.old).now.out }
    {
        self.copy_files()?;
        let kept = copied(self.alloc, bytes)?;
        keep_write(&mut self.calls, &mut self.present, file, at, kept, bytes)?;
        Ok(())
    }

    /// Cuts a file to its first `len` bytes. After an `Err`, which is want of memory, nothing is changed.
    pub fn cut(&mut self, file: FileKind, len: u64) -> Result<(), HostFault>
        ensures ok { OnOk result (files_on self.new ≡ with_ (files_on self.old) file (take len (of (files_on self.old) file))) }
        ensures err { OnErr result (files_on self.new ≡ files_on self.old) }
        ensures memory { IsErrOf result HostFault.Fault → ⊥ }
        ensures moments { Keeps (IsCut (history_on self.old).now file len) result (history_on self.old) (history_on self.new) }
        ensures output { (history_on self.new).now.out ≡ (history_on self.old).now.out }
    {
        self.copy_files()?;
        keep_cut(&mut self.calls, &mut self.present, file, len)?;
        Ok(())
    }

    /// Brings a file to the disk. After an `Err`, which is want of memory, nothing is changed.
    pub fn sync(&mut self, file: FileKind) -> Result<(), HostFault>
        ensures files { files_on self.new ≡ files_on self.old }
        ensures memory { IsErrOf result HostFault.Fault → ⊥ }
        ensures moments { Keeps (IsSynced (history_on self.old).now file (of (files_on self.old) file)) result (history_on self.old) (history_on self.new) }
        ensures output { (history_on self.new).now.out ≡ (history_on self.old).now.out }
    {
        self.note(Call::Sync { file })
    }

    // Keeps a call that changes neither what a read gives nor the output. After an `Err`, which is `NoMemory`, nothing
    // is changed.
    fn note(&mut self, call: Call) -> Result<(), HostFault>
        requires files { (s : State) → (after_call s call).files ≡ s.files }
        requires told { (s : State) → (after_call s call).moment.out ≡ s.moment.out }
        ensures memory { IsErrOf result HostFault.Fault → ⊥ }
        ensures moments { Keeps (λ m. m ≡ (after_call (state_on self.old) call).moment) result (history_on self.old) (history_on self.new) }
        ensures files { files_on self.new ≡ files_on self.old }
        ensures output { (history_on self.new).now.out ≡ (history_on self.old).now.out }
    {
        keep(&mut self.calls, call)
    }

    // From the first change on the files are kept twice.
    fn copy_files(&mut self) -> Result<(), HostFault>
        ensures copied { OnOk result (self.new.is_copied ≡ true) }
        ensures memory { IsErrOf result HostFault.Fault → ⊥ }
        ensures files { files_on self.new ≡ files_on self.old }
        ensures history { history_on self.new ≡ history_on self.old }
        ensures alloc { self.new.alloc ≡ self.old.alloc }
    {
        if self.is_copied {
            return Ok(());
        }
        let Ok(present) = self.first.copy(self.alloc) else {
            return Err(HostFault::NoMemory);
        };
        self.present = present;
        self.is_copied = true;
        Ok(())
    }
}

// Takes output, and keeps the call. The only `Err` is `NoMemory`, and then nothing is changed.
fn keep_output(
    calls: &mut Vec<Call>,
    output: &mut Bytes,
    kept: Bytes,
    bytes: &[u8],
) -> Result<(), HostFault>
    requires { kept ≡ bytes.now }
    ensures ok { OnOk result (calls.new.items ≡ calls.old.items ++ Call.Output bytes.now ∷ []) }
    ensures err { OnErr result (calls.new.items ≡ calls.old.items) }
    ensures told { (first : Five (List ℕ)) → (history_of first calls.old.items).now.out ≡ output.old → (history_of first calls.new.items).now.out ≡ output.new }
    ensures files { (first : Five (List ℕ)) → files_after first calls.new.items ≡ files_after first calls.old.items }
    ensures memory { IsErrOf result HostFault.Fault → ⊥ }
{
    keep(calls, Call::Output { bytes: kept })?;
    if output.extend(bytes).is_err() {
        calls.pop();
        return Err(HostFault::NoMemory);
    }
    Ok(())
}

// Writes to a file, and keeps the call. The only `Err` is `NoMemory`, and then nothing is changed.
fn keep_write(
    calls: &mut Vec<Call>,
    files: &mut Files,
    file: FileKind,
    at: u64,
    kept: Bytes,
    bytes: &[u8],
) -> Result<(), HostFault>
    requires kept { kept ≡ bytes.now }
    requires within { at ≤ length (of (contents_of files.old) file) }
    ensures room { OnOk result (at + length bytes.now ≤ 2 ^ 62) }
    ensures ok { OnOk result (calls.new.items ≡ calls.old.items ++ Call.Write file at bytes.now ∷ []) }
    ensures err { OnErr result (calls.new.items ≡ calls.old.items) }
    ensures files { (first : Five (List ℕ)) → files_after first calls.old.items ≡ contents_of files.old → files_after first calls.new.items ≡ contents_of files.new }
    ensures told { (first : Five (List ℕ)) → (history_of first calls.new.items).now.out ≡ (history_of first calls.old.items).now.out }
    ensures memory { IsErrOf result HostFault.Fault → ⊥ }
{
    let call = Call::Write {
        file,
        at,
        bytes: kept,
    };
    keep(calls, call)?;
    if let Err(fault) = files.write(file, at, bytes) {
        calls.pop();
        return Err(fault);
    }
    Ok(())
}

// Cuts a file, and keeps the call. The only `Err` is `NoMemory`, and then nothing is changed.
fn keep_cut(
    calls: &mut Vec<Call>,
    files: &mut Files,
    file: FileKind,
    len: u64,
) -> Result<(), HostFault>
    ensures ok { OnOk result (calls.new.items ≡ calls.old.items ++ Call.Cut file len ∷ []) }
    ensures err { OnErr result (calls.new.items ≡ calls.old.items) }
    ensures files { (first : Five (List ℕ)) → files_after first calls.old.items ≡ contents_of files.old → files_after first calls.new.items ≡ contents_of files.new }
    ensures told { (first : Five (List ℕ)) → (history_of first calls.new.items).now.out ≡ (history_of first calls.old.items).now.out }
    ensures memory { IsErrOf result HostFault.Fault → ⊥ }
{
    keep(calls, Call::Cut { file, len })?;
    files.cut(file, len);
    Ok(())
}

// Keeps a call. The only `Err` is `NoMemory`.
fn keep(calls: &mut Vec<Call>, call: Call) -> Result<(), HostFault>
    ensures ok { OnOk result (calls.new.items ≡ calls.old.items ++ call ∷ []) }
    ensures err { OnErr result (calls.new.items ≡ calls.old.items) }
    ensures memory { IsErrOf result HostFault.Fault → ⊥ }
{
    match calls.push(call) {
        Ok(()) => Ok(()),
        Err(_) => Err(HostFault::NoMemory),
    }
}

// These bytes once more. The only `Err` is `NoMemory`.
fn copied(alloc: Global, bytes: &[u8]) -> Result<Bytes, HostFault>
    ensures ok { IfOk result (λ copied. copied ≡ bytes.now) }
    ensures memory { IsErrOf result HostFault.Fault → ⊥ }
{
    match bytes.to_vec(alloc) {
        Ok(bytes) => Ok(Bytes::from_vec(bytes)),
        Err(_) => Err(HostFault::NoMemory),
    }
}
