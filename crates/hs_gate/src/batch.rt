// Groups that are to be added together.
ghost use Rattle.std.specs.Prelude.{◌≡◌, ◌↔◌, ◌^◌, ◌<◌, [], ◌∷◌, ◌++◌, length, drop, IsTrue, OnOk, OnErr};
ghost use Rattle.hs_gate.specs.Groups.{group, spelled};

use std::alloc::{AllocError, Global};
use std::marker::Model;

/// Groups that are to be added to a file together. Contracts see the list of their payloads; in memory they stand one
/// behind the other as they will in the file.
#[derive(Debug, Drop)]
pub struct Batch {
    bytes: Vec<u8>,
    count: u64,
}

impl Model for Batch {
    ghost use Rattle.std.specs.Prelude.{◌≡◌, List, ℕ, [], ◌∷◌, ◌++◌, length};
    ghost use Rattle.std.specs.Coded.{coded_list, coded_ℕ};
    ghost use Rattle.hs_gate.specs.Groups.{groups_at, spelled};

    ghost Value = { List (List ℕ) };

    ghost coded = { coded_list (coded_list coded_ℕ) };

    ghost view = { λ b. (groups_at 0 (b.bytes.items ++ 0 ∷ [])).payloads };

    ghost invariant = { λ b. (b.bytes.items ≡ spelled (groups_at 0 (b.bytes.items ++ 0 ∷ [])).payloads) × (b.count ≡ length (groups_at 0 (b.bytes.items ++ 0 ∷ [])).payloads) };
}

impl Batch {
    /// No groups. Takes no memory.
    pub fn new(alloc: Global) -> Batch
        ensures { result ≡ [] }
    {
        Batch {
            bytes: Vec::new(alloc),
            count: 0,
        }
    }

    /// Puts one more group behind the others. After an `Err`, which is want of memory, nothing is changed.
    pub fn push(&mut self, payload: &[u8]) -> Result<(), AllocError>
        ensures ok { OnOk result (self.new ≡ self.old ++ payload.now ∷ []) }
        ensures err { OnErr result (self.new ≡ self.old) }
    {
        push_group(&mut self.bytes, payload)?;
        self.count += 1;
        Ok(())
    }

    /// Puts the groups of another batch behind these. After an `Err`, which is want of memory, nothing is changed.
    pub fn append(&mut self, more: &Batch) -> Result<(), AllocError>
        ensures ok { OnOk result (self.new ≡ self.old ++ more.now) }
        ensures err { OnErr result (self.new ≡ self.old) }
    {
        push_bytes(&mut self.bytes, &more.bytes)?;
        self.count += more.count;
        Ok(())
    }

    /// How many groups there are.
    pub fn count(&self) -> u64
        ensures { result ≡ length self.now }
    {
        self.count
    }

    /// Whether there is none.
    pub fn is_empty(&self) -> bool
        ensures { IsTrue result ↔ (self.now ≡ []) }
    {
        self.count == 0
    }

    /// Takes all groups out. The memory is kept for others.
    pub fn clear(&mut self)
        ensures { self.new ≡ [] }
    {
        self.bytes.clear();
        self.count = 0;
    }

    /// The bytes of all groups, each with its open gate, its length and its payload.
    pub fn spelled(&self) -> &[u8]
        ensures { result.now ≡ spelled self.now }
    {
        &self.bytes
    }

    /// These bytes without the first gate, or none.
    pub fn behind_first_gate(&self) -> &[u8]
        ensures { result.now ≡ drop 1 (spelled self.now) }
    {
        match self.bytes.split_first() {
            Some((_, behind)) => behind,
            None => &[],
        }
    }
}

// Puts a group behind bytes. After an `Err`, which is want of memory, nothing is changed.
fn push_group(bytes: &mut Vec<u8>, payload: &[u8]) -> Result<(), AllocError>
    ensures ok { OnOk result (bytes.new.items ≡ bytes.old.items ++ group payload.now) }
    ensures err { OnErr result (bytes.new.items ≡ bytes.old.items) }
    ensures fits { length bytes.new.items < 2 ^ 64 }
{
    let before = bytes.len();
    let mut head = [1; 9];
    head[1..].copy_from_slice(&(payload.len() as u64).to_be_bytes());
    bytes.extend_from_slice(&head)?;
    if let Err(error) = bytes.extend_from_slice(payload) {
        bytes.truncate(before);
        return Err(error);
    }
    Ok(())
}

// Puts bytes behind others. After an `Err`, which is want of memory, nothing is changed.
fn push_bytes(bytes: &mut Vec<u8>, more: &[u8]) -> Result<(), AllocError>
    ensures ok { OnOk result (bytes.new.items ≡ bytes.old.items ++ more.now) }
    ensures err { OnErr result (bytes.new.items ≡ bytes.old.items) }
    ensures fits { length bytes.new.items < 2 ^ 64 }
{
    bytes.extend_from_slice(more)
}
