// Which keys are descending.
ghost use Rattle.std.specs.Prelude.{◌≡◌, ◌∷◌, ◌++◌, [], ◌↔◌, IsTrue, length, IfOk, OnOk, OnErr};

use std::alloc::{AllocError, Global};
use std::marker::Model;

/// A flag for each key of an order, true where it is descending. Contracts see the list.
#[derive(Debug, Drop)]
pub struct Flags {
    flags: Vec<bool>,
}

impl Model for Flags {
    ghost use Rattle.std.specs.Prelude.{List, Bool};

    ghost Value = { List Bool };

    ghost view = { λ l. l.flags.items };
}

impl Flags {
    /// The empty list. Takes no memory.
    pub fn new(alloc: Global) -> Flags
        ensures { result ≡ [] }
    {
        Flags {
            flags: Vec::new(alloc),
        }
    }

    /// The list of a vector, without taking memory.
    pub fn from_vec(flags: Vec<bool>) -> Flags
        ensures { result ≡ flags.items }
    {
        Flags { flags }
    }

    /// The vector of this list, without taking memory.
    pub fn into_vec(self) -> Vec<bool>
        ensures { result.items ≡ self }
    {
        self.flags
    }

    pub fn as_slice(&self) -> &[bool]
        ensures { result.now ≡ self.now }
    {
        &self.flags
    }

    pub fn len(&self) -> usize
        ensures { result ≡ length self.now }
    {
        self.flags.len()
    }

    pub fn is_empty(&self) -> bool
        ensures { IsTrue result ↔ (self.now ≡ []) }
    {
        self.flags.is_empty()
    }

    /// Adds one at the end. After an `Err`, which is want of memory, nothing is changed.
    pub fn push(&mut self, descending: bool) -> Result<(), AllocError>
        ensures ok { OnOk result (self.new ≡ self.old ++ descending ∷ []) }
        ensures err { OnErr result (self.new ≡ self.old) }
    {
        self.flags.push(descending)?;
        Ok(())
    }
}
