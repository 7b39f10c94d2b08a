// The things of a catalogue.
ghost use Rattle.std.specs.Prelude.{◌≡◌, IfOk};
ghost use Rattle.hs_schema.specs.Catalogue.{is_constraint};

use crate::making::copy_columns;
use hs_base::{NoMemory, TableNo};
use hs_plan::{Column, Constraint, Storage};
use hs_values::Name;
use sqlite_items::Items;
use std::alloc::Global;

/// What a thing is.
#[derive(Drop)]
pub enum Part {
    /// A table with the columns of its CREATE.
    Table {
        name: Name,
        storage: Storage,
        columns: Items<Column>,
    },
    /// A column that was added later.
    Column(Column),
    /// A constraint or an index.
    Constraint(Constraint),
}

/// A thing of a catalogue.
#[derive(Drop)]
pub struct Thing {
    /// The change number of the definition that made it.
    pub number: u64,
    /// The table that it is, or that it belongs to.
    pub table: TableNo,
    pub part: Part,
}

impl Part {
    // Whether it is the constraint or index of this name.
    pub(crate) fn is_constraint(&self, name: &str) -> bool
        ensures { result ≡ is_constraint name.now self.now }
    {
        match self {
            Part::Table { .. } | Part::Column(_) => false,
            Part::Constraint(constraint) => name == constraint.name.as_str(),
        }
    }

    // A copy, which equals its source.
    fn copy(&self, alloc: Global) -> Result<Part, NoMemory>
        ensures { IfOk result (λ copied. copied ≡ self.now) }
    {
        match self {
            Part::Table {
                name,
                storage,
                columns,
            } => Ok(Part::Table {
                name: name.copy()?,
                storage: *storage,
                columns: copy_columns(columns.as_slice(), alloc)?,
            }),
            Part::Column(column) => Ok(Part::Column(column.copy()?)),
            Part::Constraint(constraint) => Ok(Part::Constraint(constraint.copy(alloc)?)),
        }
    }
}

impl Thing {
    /// A copy, which equals its source.
    pub(crate) fn copy(&self, alloc: Global) -> Result<Thing, NoMemory>
        ensures { IfOk result (λ copied. copied ≡ self.now) }
    {
        Ok(Thing {
            number: self.number,
            table: self.table,
            part: self.part.copy(alloc)?,
        })
    }
}
