// The numbers of tables.
ghost use Rattle.std.specs.Prelude.{◌≡◌, ◌∷◌, ◌++◌, [], ◌↔◌, IsTrue, length, IfOk, OnOk, OnErr};
ghost use Rattle.std.specs.List.{Contains};

use crate::no_memory::NoMemory;
use crate::numbers::TableNo;
use std::alloc::Global;
use std::marker::Model;

/// Numbers of tables. Contracts see the list.
#[derive(Debug, Drop)]
pub struct Tables {
    tables: Vec<TableNo>,
}

impl Model for Tables {
    ghost use Rattle.std.specs.Prelude.{List};
    ghost use Rattle.hs_base.specs.declared.numbers.TableNo.{TableNo};

    ghost Value = { List TableNo };

    ghost view = { λ l. l.tables.items };
}

impl Tables {
    /// The empty list. Takes no memory.
    pub fn new(alloc: Global) -> Tables
        ensures { result ≡ [] }
    {
        Tables {
            tables: Vec::new(alloc),
        }
    }

    /// The list of a vector, without taking memory.
    pub fn from_vec(tables: Vec<TableNo>) -> Tables
        ensures { result ≡ tables.items }
    {
        Tables { tables }
    }

    /// The vector of this list, without taking memory.
    pub fn into_vec(self) -> Vec<TableNo>
        ensures { result.items ≡ self }
    {
        self.tables
    }

    pub fn as_slice(&self) -> &[TableNo]
        ensures { result.now ≡ self.now }
    {
        &self.tables
    }

    pub fn len(&self) -> usize
        ensures { result ≡ length self.now }
    {
        self.tables.len()
    }

    pub fn is_empty(&self) -> bool
        ensures { IsTrue result ↔ (self.now ≡ []) }
    {
        self.tables.is_empty()
    }

    /// Adds one at the end. After an `Err`, which is want of memory, nothing is changed.
    pub fn push(&mut self, table: TableNo) -> Result<(), NoMemory>
        ensures ok { OnOk result (self.new ≡ self.old ++ table ∷ []) }
        ensures err { OnErr result (self.new ≡ self.old) }
    {
        self.tables.push(table)?;
        Ok(())
    }

    /// Whether the list has it.
    pub fn contains(&self, table: TableNo) -> bool
        ensures { IsTrue result ↔ Contains self.now table }
    {
        self.tables.contains(&table)
    }

    /// The same list in memory of its own, which is taken at once.
    pub fn copy(&self) -> Result<Tables, NoMemory>
        ensures { IfOk result (λ copied. copied ≡ self.now) }
    {
        Ok(Tables {
            tables: self.tables.clone()?,
        })
    }
}
