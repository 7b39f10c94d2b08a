// The types of columns.
ghost use Rattle.std.specs.Prelude.{◌≡◌, ◌∷◌, ◌++◌, [], ◌↔◌, IsTrue, length, IfOk, OnOk, OnErr};

use crate::sql_type::SqlType;
use std::alloc::{AllocError, Global};
use std::marker::Model;

/// The types of a table's or a query's columns. Contracts see the list.
#[derive(Debug, Drop)]
pub struct Types {
    types: Vec<SqlType>,
}

impl Model for Types {
    ghost use Rattle.std.specs.Prelude.{List};
    ghost use Rattle.hs_values.specs.declared.sql_type.SqlType.{SqlType};

    ghost Value = { List SqlType };

    ghost view = { λ l. l.types.items };
}

impl Types {
    /// The empty list. Takes no memory.
    pub fn new(alloc: Global) -> Types
        ensures { result ≡ [] }
    {
        Types {
            types: Vec::new(alloc),
        }
    }

    /// The list of a vector, without taking memory.
    pub fn from_vec(types: Vec<SqlType>) -> Types
        ensures { result ≡ types.items }
    {
        Types { types }
    }

    /// The vector of this list, without taking memory.
    pub fn into_vec(self) -> Vec<SqlType>
        ensures { result.items ≡ self }
    {
        self.types
    }

    pub fn as_slice(&self) -> &[SqlType]
        ensures { result.now ≡ self.now }
    {
        &self.types
    }

    pub fn len(&self) -> usize
        ensures { result ≡ length self.now }
    {
        self.types.len()
    }

    pub fn is_empty(&self) -> bool
        ensures { IsTrue result ↔ (self.now ≡ []) }
    {
        self.types.is_empty()
    }

    /// Adds one at the end. After an `Err`, which is want of memory, nothing is changed.
    pub fn push(&mut self, sql_type: SqlType) -> Result<(), AllocError>
        ensures ok { OnOk result (self.new ≡ self.old ++ sql_type ∷ []) }
        ensures err { OnErr result (self.new ≡ self.old) }
    {
        self.types.push(sql_type)?;
        Ok(())
    }

    /// The same list in memory of its own, with room for nothing more. An `Err` is want of memory.
    pub fn copy(&self) -> Result<Types, AllocError>
        ensures { IfOk result (λ copied. copied ≡ self.now) }
    {
        Ok(Types {
            types: self.types.clone()?,
        })
    }
}
