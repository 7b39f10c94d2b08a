// The values of one row, column by column.
ghost use Rattle.std.specs.Prelude.{◌≡◌, ◌∷◌, ◌++◌, [], ◌↔◌, IsTrue, length, IfOk, OnOk, OnErr};

use crate::value::Value;
use std::alloc::{AllocError, Global};
use std::marker::Model;

/// The values of one row, column by column. Contracts see the list.
#[derive(Debug, Drop)]
pub struct Row {
    values: Vec<Value>,
}

impl Model for Row {
    ghost use Rattle.std.specs.Prelude.{List};
    ghost use Rattle.hs_values.specs.declared.value.Value.{Value as SqlValue};

    ghost Value = { List SqlValue };

    ghost view = { λ l. l.values.items };
}

impl Row {
    /// The empty list. Takes no memory.
    pub fn new(alloc: Global) -> Row
        ensures { result ≡ [] }
    {
        Row {
            values: Vec::new(alloc),
        }
    }

    /// The list of a vector, without taking memory.
    pub fn from_vec(values: Vec<Value>) -> Row
        ensures { result ≡ values.items }
    {
        Row { values }
    }

    /// The vector of this list, without taking memory.
    pub fn into_vec(self) -> Vec<Value>
        ensures { result.items ≡ self }
    {
        self.values
    }

    pub fn as_slice(&self) -> &[Value]
        ensures { result.now ≡ self.now }
    {
        &self.values
    }

    pub fn len(&self) -> usize
        ensures { result ≡ length self.now }
    {
        self.values.len()
    }

    pub fn is_empty(&self) -> bool
        ensures { IsTrue result ↔ (self.now ≡ []) }
    {
        self.values.is_empty()
    }

    /// Adds one at the end. After an `Err`, which is want of memory, nothing is changed.
    pub fn push(&mut self, value: Value) -> Result<(), AllocError>
        ensures ok { OnOk result (self.new ≡ self.old ++ value ∷ []) }
        ensures err { OnErr result (self.new ≡ self.old) }
    {
        self.values.push(value)?;
        Ok(())
    }

    /// The same row in memory of its own, with room for nothing more. An `Err` is want of memory, and
    /// what was copied by then is given back.
    pub fn copy(&self) -> Result<Row, AllocError>
        ensures { IfOk result (λ copied. copied ≡ self.now) }
    {
        let mut values = Vec::with_capacity(*self.values.allocator(), self.values.len())?;
        for value in &self.values {
            values.push(value.copy()?)?;
        }
        Ok(Row { values })
    }
}
