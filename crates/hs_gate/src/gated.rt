// A gated file that was read.
ghost use Rattle.std.specs.Prelude.{◌≡◌, ◌↔◌, ℕ, ◌+◌, ◌-◌, ◌^◌, ◌<◌, ◌≤◌, [], ◌∷◌, length, take, None, Err, IfOk, IfSome, OnOk, OnErr, IsErrOf};
ghost use Rattle.hs_host.specs.Files.{of, piece, IsOpen};
ghost use Rattle.hs_host.specs.Used.{Told, ReadsFiles, ChangesFile};
ghost use Rattle.hs_gate.specs.Crash.{IsCalm, StandsOnDisk, IsAsBefore, IsBeforeOrAfter, HasMore};
ghost use Rattle.hs_gate.specs.Faults.{HasGateCause, FailsWith};
ghost use Rattle.hs_gate.specs.Spelled.{HasNoGroup};

use crate::batch::Batch;
use crate::found::{Found, look};
use crate::gate_fault::GateFault;
use crate::part::Part;
use crate::reading::{read_front, read_payload};
use crate::writing::write_behind_gate;
use hs_host::{FileKind, Host, cut, sync};
use std::alloc::Global;

/// As many bytes of a group as are read at once.
const HEAD_BYTES: usize = 256;

/// An open gated file, as it was read.
#[derive(Clone, Copy, Debug, PartialEq, Eq)]
pub struct Gated {
    /// The file.
    pub file: FileKind,
    /// The number in bytes 2 to 9 of its header.
    pub epoch: u64,
    /// How many groups it has.
    pub groups: u64,
    /// The place of the gate that ends its groups, in bytes from the file's first. That gate isn't open.
    pub end: u64,
}

impl Gated {
    ghost use Rattle.hs_gate.specs.Gated.{IsFront, IsGated, IsAtRest, IsPlace, TakesPart, grown, appended};

    /// Reads the group whose gate is at a place in bytes: 10 for the first group, `next` of the part before for any other,
    /// and `end` where none is left. It is for groups that are read by their places, as those of the backup will be; no crate
    /// of the program calls it yet. Those of the log are read one after another (`GroupReader`).
    ///
    /// It answers none exactly where `at` is `end`. `Broken(at)` comes only where the bytes from there to `end`,
    /// as they were read, are no whole group with one more byte behind it, and never over an honest host. `Disk`
    /// comes only where a call of the host failed, and `NoMemory` is free.
    pub fn part<H: Host>(
        &self,
        alloc: Global,
        host: &mut H,
        at: u64,
    ) -> Result<Option<Part>, GateFault>
        requires opened { IsOpen (H.standing host.old) }
        requires within { at ≤ self.now.end }
        requires front { Told H.Source H.Host.own host.old → IsFront (H.files host.old) self.now }
        requires place { Told H.Source H.Host.own host.old → IsPlace (of (H.files host.old) self.now.file) at }
        ensures payload { Told H.Source H.Host.own host.old → IfOk result (TakesPart (of (H.files host.old) self.now.file) at) }
        ensures none { IfOk result (λ part. part ≡ None ↔ at ≡ self.now.end) }
        ensures next { IfOk result (λ part. IfSome part (λ p. (p.next ≡ at + (9 + length p.payload)) × (p.next ≤ self.now.end))) }
        ensures whole { Told H.Source H.Host.own host.old → (number : ℕ) → IsErrOf result (GateFault.Broken number) → ⊥ }
        ensures broken { (number : ℕ) → IsErrOf result (GateFault.Broken number) → number ≡ at }
        ensures no_group { H.tells → (number : ℕ) → IsErrOf result (GateFault.Broken number) → HasNoGroup (piece at (self.now.end - at + 1) (of (H.files host.new) self.now.file)) }
        ensures reads { ReadsFiles H.Source H.Host.own host.old host.new }
        ensures cause { HasGateCause (H.disk_faults host.old) (H.disk_faults host.new) result }
    {
        let behind = self.end - at;
        if behind == 0 {
            return Ok(None);
        }
        let mut buffer = [0; HEAD_BYTES];
        let count = behind.min(HEAD_BYTES as u64 - 1) as usize + 1;
        read_front(host, self.file, at, &mut buffer, count)?;
        let head = &buffer[..count];
        let size = match look(head, behind) {
            Found::Group(size) => size,
            Found::Closed => return Err(GateFault::Broken(at)),
            Found::Broken => return Err(GateFault::Broken(at)),
        };
        let payload = read_payload(alloc, host, self.file, at + 9, size, &head[9..])?;
        Ok(Some(Part {
            payload,
            next: at + 9 + size,
        }))
    }

    /// Adds a group: its length, its payload and a closed gate are written and synced, then its gate is
    /// opened and synced. It takes no memory of its own.
    ///
    /// At each moment on the way a crash leaves the file with the same header, and with its groups as they were, or
    /// with these and the new one. After an `Ok` it has the new one, and stands on the disk up to the gate behind it.
    ///
    /// After an `Err` this is unchanged, and the file is to be read again. `Disk` comes only where a call of
    /// the host failed. `NoMemory` is handed on from the host, and comes where the places don't fit in 64 bits.
    pub fn append<H: Host>(&mut self, host: &mut H, payload: &[u8]) -> Result<(), GateFault>
        requires opened { IsOpen (H.standing host.old) }
        requires stands { Told H.Source H.Host.own host.old → StandsOnDisk (H.history host.old) (H.files host.old) self.old }
        ensures changes { ChangesFile H.Source H.Host.own self.old.file (IsBeforeOrAfter (of (H.files host.old) self.old.file) (payload.now ∷ [])) host.old host.new }
        ensures fails { FailsWith (H.disk_faults host.old) (H.disk_faults host.new) result }
        ensures ok { OnOk result (self.new ≡ grown self.old (payload.now ∷ [])) }
        ensures err { OnErr result (self.new ≡ self.old) }
        ensures bytes { Told H.Source H.Host.own host.old → OnOk result (of (H.files host.new) self.old.file ≡ appended (of (H.files host.old) self.old.file) self.old.end (payload.now ∷ [])) }
        ensures after { Told H.Source H.Host.own host.old → OnOk result (HasMore (of (H.files host.old) self.old.file) (payload.now ∷ []) (of (H.files host.new) self.old.file)) }
        ensures at_rest { Told H.Source H.Host.own host.old → OnOk result (IsAtRest (H.files host.old) self.old → IsAtRest (H.files host.new) self.new) }
        ensures stands { Told H.Source H.Host.own host.old → OnOk result (StandsOnDisk (H.history host.new) (H.files host.new) self.new) }
    {
        let size = payload.len() as u64;
        let added = sum(9, size)?;
        let grown = self.grown(1, added)?;
        let length = size.to_be_bytes();
        write_behind_gate(host, self.file, self.end, &length, payload)?;
        *self = grown;
        Ok(())
    }

    /// Adds several groups behind one closed gate: all of them but their first gate, and a closed gate behind them, are
    /// written and synced, then that first gate is opened and synced. The file's bytes are as if each had been added
    /// alone (`groups_are_added_one_by_one`). It takes no memory of its own.
    ///
    /// At each moment on the way a crash leaves the file with the same header, and with its groups as they were, or
    /// with these and all of the new ones. After an `Ok` it has them all, and stands on the disk up to the gate behind
    /// them.
    ///
    /// After an `Err` this is unchanged, and the file is to be read again. `Disk` comes only where a call of
    /// the host failed. `NoMemory` is handed on from the host, and comes where the places don't fit in 64 bits.
    pub fn append_all<H: Host>(&mut self, host: &mut H, batch: &Batch) -> Result<(), GateFault>
        requires opened { IsOpen (H.standing host.old) }
        requires some { 0 < length batch.now }
        requires stands { Told H.Source H.Host.own host.old → StandsOnDisk (H.history host.old) (H.files host.old) self.old }
        ensures changes { ChangesFile H.Source H.Host.own self.old.file (IsBeforeOrAfter (of (H.files host.old) self.old.file) batch.now) host.old host.new }
        ensures fails { FailsWith (H.disk_faults host.old) (H.disk_faults host.new) result }
        ensures ok { OnOk result (self.new ≡ grown self.old batch.now) }
        ensures err { OnErr result (self.new ≡ self.old) }
        ensures bytes { Told H.Source H.Host.own host.old → OnOk result (of (H.files host.new) self.old.file ≡ appended (of (H.files host.old) self.old.file) self.old.end batch.now) }
        ensures after { Told H.Source H.Host.own host.old → OnOk result (HasMore (of (H.files host.old) self.old.file) batch.now (of (H.files host.new) self.old.file)) }
        ensures at_rest { Told H.Source H.Host.own host.old → OnOk result (IsAtRest (H.files host.old) self.old → IsAtRest (H.files host.new) self.new) }
        ensures stands { Told H.Source H.Host.own host.old → OnOk result (StandsOnDisk (H.history host.new) (H.files host.new) self.new) }
    {
        let size = batch.spelled().len() as u64;
        let grown = self.grown(batch.count(), size)?;
        let behind = batch.behind_first_gate();
        write_behind_gate(host, self.file, self.end, &[], behind)?;
        *self = grown;
        Ok(())
    }

    // What it will be with more groups, so many and of so many bytes. An `Err` is that the places don't fit in 64 bits.
    fn grown(&self, count: u64, size: u64) -> Result<Gated, GateFault>
        ensures ok { IfOk result (λ gated. gated ≡ record self.now { groups = self.now.groups + count; end = self.now.end + size }) }
        ensures fits { IfOk result (λ gated. self.now.end + size < 2 ^ 64) }
        ensures err { OnErr result (result ≡ Err GateFault.NoMemory) }
    {
        let groups = sum(self.groups, count)?;
        let end = sum(self.end, size)?;
        Ok(Gated {
            file: self.file,
            epoch: self.epoch,
            groups,
            end,
        })
    }

    /// Brings a file that was read to the disk, and cuts off what stands behind the gate that ends its groups.
    ///
    /// Where the file stood on the disk up to that gate, a crash at any moment leaves it with the same header and the
    /// same groups. After an `Ok` it stands there, and nothing stands behind that gate.
    ///
    /// `Disk` comes only where a call of the host failed. `NoMemory` is handed on from the host, and comes
    /// where the places don't fit in 64 bits.
    pub fn settle<H: Host>(&self, host: &mut H) -> Result<(), GateFault>
        requires opened { IsOpen (H.standing host.old) }
        requires gated { Told H.Source H.Host.own host.old → IsGated (H.files host.old) self.now }
        ensures changes { ChangesFile H.Source H.Host.own self.now.file (λ left. IsCalm (H.history host.old) (H.files host.old) self.now → IsAsBefore (of (H.files host.old) self.now.file) left) host.old host.new }
        ensures fails { FailsWith (H.disk_faults host.old) (H.disk_faults host.new) result }
        ensures same { Told H.Source H.Host.own host.old → IsAsBefore (of (H.files host.old) self.now.file) (of (H.files host.new) self.now.file) }
        ensures bytes { Told H.Source H.Host.own host.old → OnOk result (of (H.files host.new) self.now.file ≡ take (self.now.end + 1) (of (H.files host.old) self.now.file)) }
        ensures err { Told H.Source H.Host.own host.old → OnErr result (H.files host.new ≡ H.files host.old) }
        ensures at_rest { Told H.Source H.Host.own host.old → OnOk result (IsAtRest (H.files host.new) self.now) }
        ensures stands { Told H.Source H.Host.own host.old → OnOk result (StandsOnDisk (H.history host.new) (H.files host.new) self.now) }
    {
        let length = sum(self.end, 1)?;
        sync(host, self.file)?;
        cut(host, self.file, length)?;
        Ok(())
    }
}

// A sum, where it fits in 64 bits.
fn sum(first: u64, second: u64) -> Result<u64, GateFault>
    ensures ok { IfOk result (λ sum. sum ≡ first + second) }
    ensures err { OnErr result (result ≡ Err GateFault.NoMemory) }
{
    first.checked_add(second).ok_or(GateFault::NoMemory)
}
