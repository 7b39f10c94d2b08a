// The names of keys.
ghost use Rattle.std.specs.Prelude.{◌≡◌, ◌∷◌, ◌++◌, [], ◌↔◌, IsTrue, length, IfOk, OnOk, OnErr};

use hs_base::{ConstraintNo, NoMemory, TableNo};
use hs_values::Row;
use std::alloc::Global;
use std::marker::Model;

/// A key by its table, its constraint, and its values in the order of the constraint's columns.
#[derive(Debug, Drop)]
pub struct KeyName {
    pub table: TableNo,
    pub constraint: ConstraintNo,
    pub values: Row,
}

impl KeyName {
    /// The same name in memory of its own. An `Err` is want of memory.
    pub fn copy(&self) -> Result<KeyName, NoMemory>
        ensures { IfOk result (λ copied. copied ≡ self.now) }
    {
        Ok(KeyName {
            table: self.table,
            constraint: self.constraint,
            values: self.values.copy()?,
        })
    }
}

/// Names of keys, of one table or of several. Contracts see the list.
#[derive(Debug, Drop)]
pub struct KeyNames {
    keys: Vec<KeyName>,
}

impl Model for KeyNames {
    ghost use Rattle.std.specs.Prelude.{List};
    ghost use Rattle.hs_claims.specs.declared.key_names.KeyName.{KeyName};

    ghost Value = { List KeyName };

    ghost view = { λ l. l.keys.items };
}

impl KeyNames {
    /// The empty list. Takes no memory.
    pub fn new(alloc: Global) -> KeyNames
        ensures { result ≡ [] }
    {
        KeyNames {
            keys: Vec::new(alloc),
        }
    }

    /// The list of a vector, without taking memory.
    pub fn from_vec(keys: Vec<KeyName>) -> KeyNames
        ensures { result ≡ keys.items }
    {
        KeyNames { keys }
    }

    /// The vector of this list, without taking memory.
    pub fn into_vec(self) -> Vec<KeyName>
        ensures { result.items ≡ self }
    {
        self.keys
    }

    pub fn as_slice(&self) -> &[KeyName]
        ensures { result.now ≡ self.now }
    {
        &self.keys
    }

    pub fn len(&self) -> usize
        ensures { result ≡ length self.now }
    {
        self.keys.len()
    }

    pub fn is_empty(&self) -> bool
        ensures { IsTrue result ↔ (self.now ≡ []) }
    {
        self.keys.is_empty()
    }

    /// Adds one at the end. After an `Err`, which is want of memory, nothing is changed.
    pub fn push(&mut self, key: KeyName) -> Result<(), NoMemory>
        ensures ok { OnOk result (self.new ≡ self.old ++ key ∷ []) }
        ensures err { OnErr result (self.new ≡ self.old) }
    {
        self.keys.push(key)?;
        Ok(())
    }

    /// The same list in memory of its own. An `Err` is want of memory, and what was copied by then is given back.
    pub fn copy(&self) -> Result<KeyNames, NoMemory>
        ensures { IfOk result (λ copied. copied ≡ self.now) }
    {
        let mut keys = Vec::with_capacity(*self.keys.allocator(), self.keys.len())?;
        for key in &self.keys {
            keys.push(key.copy()?)?;
        }
        Ok(KeyNames { keys })
    }
}
