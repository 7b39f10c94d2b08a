// The names of rows.
ghost use Rattle.std.specs.Prelude.{◌≡◌, ◌∷◌, ◌++◌, [], ◌↔◌, IsTrue, length, IfOk, OnOk, OnErr};
ghost use Rattle.std.specs.List.{Contains};

use crate::no_memory::NoMemory;
use crate::numbers::RowName;
use std::alloc::Global;
use std::marker::Model;

/// Names of rows, of one table or of several. Contracts see the list.
#[derive(Debug, Drop)]
pub struct RowNames {
    rows: Vec<RowName>,
}

impl Model for RowNames {
    ghost use Rattle.std.specs.Prelude.{List};
    ghost use Rattle.hs_base.specs.declared.numbers.RowName.{RowName};

    ghost Value = { List RowName };

    ghost view = { λ l. l.rows.items };
}

impl RowNames {
    /// The empty list. Takes no memory.
    pub fn new(alloc: Global) -> RowNames
        ensures { result ≡ [] }
    {
        RowNames {
            rows: Vec::new(alloc),
        }
    }

    /// The list of a vector, without taking memory.
    pub fn from_vec(rows: Vec<RowName>) -> RowNames
        ensures { result ≡ rows.items }
    {
        RowNames { rows }
    }

    /// The vector of this list, without taking memory.
    pub fn into_vec(self) -> Vec<RowName>
        ensures { result.items ≡ self }
    {
        self.rows
    }

    pub fn as_slice(&self) -> &[RowName]
        ensures { result.now ≡ self.now }
    {
        &self.rows
    }

    pub fn len(&self) -> usize
        ensures { result ≡ length self.now }
    {
        self.rows.len()
    }

    pub fn is_empty(&self) -> bool
        ensures { IsTrue result ↔ (self.now ≡ []) }
    {
        self.rows.is_empty()
    }

    /// Adds one at the end. After an `Err`, which is want of memory, nothing is changed.
    pub fn push(&mut self, row: RowName) -> Result<(), NoMemory>
        ensures ok { OnOk result (self.new ≡ self.old ++ row ∷ []) }
        ensures err { OnErr result (self.new ≡ self.old) }
    {
        self.rows.push(row)?;
        Ok(())
    }

    /// Whether the list has it.
    pub fn contains(&self, row: RowName) -> bool
        ensures { IsTrue result ↔ Contains self.now row }
    {
        self.rows.contains(&row)
    }

    /// The same list in memory of its own, which is taken at once.
    pub fn copy(&self) -> Result<RowNames, NoMemory>
        ensures { IfOk result (λ copied. copied ≡ self.now) }
    {
        Ok(RowNames {
            rows: self.rows.clone()?,
        })
    }
}
