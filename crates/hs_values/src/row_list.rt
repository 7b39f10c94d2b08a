// A list of rows.
ghost use Rattle.std.specs.Prelude.{◌≡◌, ◌∷◌, ◌++◌, [], ◌↔◌, IsTrue, length, IfOk, OnOk, OnErr};

use crate::row::Row;
use std::alloc::{AllocError, Global};
use std::marker::Model;

/// A list of rows. Contracts see the list.
#[derive(Debug, Drop)]
pub struct RowList {
    rows: Vec<Row>,
}

impl Model for RowList {
    ghost use Rattle.std.specs.Prelude.{List};
    ghost use Rattle.hs_values.specs.declared.value.Value.{Value as SqlValue};

    ghost Value = { List (List SqlValue) };

    ghost view = { λ l. l.rows.items };
}

impl RowList {
    /// The empty list. Takes no memory.
    pub fn new(alloc: Global) -> RowList
        ensures { result ≡ [] }
    {
        RowList {
            rows: Vec::new(alloc),
        }
    }

    /// The list of a vector, without taking memory.
    pub fn from_vec(rows: Vec<Row>) -> RowList
        ensures { result ≡ rows.items }
    {
        RowList { rows }
    }

    /// The vector of this list, without taking memory.
    pub fn into_vec(self) -> Vec<Row>
        ensures { result.items ≡ self }
    {
        self.rows
    }

    pub fn as_slice(&self) -> &[Row]
        ensures { result.now ≡ self.now }
    {
        &self.rows
    }

    pub fn len(&self) -> usize
        ensures { result ≡ length self.now }
    {
        self.rows.len()
    }

    pub fn is_empty(&self) -> bool
        ensures { IsTrue result ↔ (self.now ≡ []) }
    {
        self.rows.is_empty()
    }

    /// Adds one at the end. After an `Err`, which is want of memory, nothing is changed.
    pub fn push(&mut self, row: Row) -> Result<(), AllocError>
        ensures ok { OnOk result (self.new ≡ self.old ++ row ∷ []) }
        ensures err { OnErr result (self.new ≡ self.old) }
    {
        self.rows.push(row)?;
        Ok(())
    }

    /// The same rows in memory of its own, with room for nothing more. An `Err` is want of memory, and
    /// what was copied by then is given back.
    pub fn copy(&self) -> Result<RowList, AllocError>
        ensures { IfOk result (λ copied. copied ≡ self.now) }
    {
        let mut rows = Vec::with_capacity(*self.rows.allocator(), self.rows.len())?;
        for row in &self.rows {
            rows.push(row.copy()?)?;
        }
        Ok(RowList { rows })
    }
}
