// The numbers of rows of one table.
ghost use Rattle.std.specs.Prelude.{◌≡◌, ◌∷◌, ◌++◌, [], ◌↔◌, IsTrue, length, IfOk, OnOk, OnErr};
ghost use Rattle.std.specs.List.{Contains};

use crate::no_memory::NoMemory;
use crate::numbers::RowNo;
use std::alloc::Global;
use std::marker::Model;

/// Numbers of rows of one table. Contracts see the list.
#[derive(Debug, Drop)]
pub struct RowNos {
    rows: Vec<RowNo>,
}

impl Model for RowNos {
    ghost use Rattle.std.specs.Prelude.{List};
    ghost use Rattle.hs_base.specs.declared.numbers.RowNo.{RowNo};

    ghost Value = { List RowNo };

    ghost view = { λ l. l.rows.items };
}

impl RowNos {
    /// The empty list. Takes no memory.
    pub fn new(alloc: Global) -> RowNos
        ensures { result ≡ [] }
    {
        RowNos {
            rows: Vec::new(alloc),
        }
    }

    /// The list of a vector, without taking memory.
    pub fn from_vec(rows: Vec<RowNo>) -> RowNos
        ensures { result ≡ rows.items }
    {
        RowNos { rows }
    }

    /// The vector of this list, without taking memory.
    pub fn into_vec(self) -> Vec<RowNo>
        ensures { result.items ≡ self }
    {
        self.rows
    }

    pub fn as_slice(&self) -> &[RowNo]
        ensures { result.now ≡ self.now }
    {
        &self.rows
    }

    pub fn len(&self) -> usize
        ensures { result ≡ length self.now }
    {
        self.rows.len()
    }

    pub fn is_empty(&self) -> bool
        ensures { IsTrue result ↔ (self.now ≡ []) }
    {
        self.rows.is_empty()
    }

    /// Adds one at the end. After an `Err`, which is want of memory, nothing is changed.
    pub fn push(&mut self, row: RowNo) -> Result<(), NoMemory>
        ensures ok { OnOk result (self.new ≡ self.old ++ row ∷ []) }
        ensures err { OnErr result (self.new ≡ self.old) }
    {
        self.rows.push(row)?;
        Ok(())
    }

    /// Whether the list has it.
    pub fn contains(&self, row: RowNo) -> bool
        ensures { IsTrue result ↔ Contains self.now row }
    {
        self.rows.contains(&row)
    }

    /// The same list in memory of its own, which is taken at once.
    pub fn copy(&self) -> Result<RowNos, NoMemory>
        ensures { IfOk result (λ copied. copied ≡ self.now) }
    {
        Ok(RowNos {
            rows: self.rows.clone()?,
        })
    }
}
