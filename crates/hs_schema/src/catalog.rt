// The catalogue.
ghost use Rattle.std.specs.Prelude.{◌≡◌, [], length, IfOk};
ghost use Rattle.std.specs.Option.{option_copied};
ghost use Rattle.hs_schema.specs.Catalogue as spec;

mod bound;
mod definitions;

use crate::children::Children;
use crate::copies::{copy_names, copy_tables, copy_things};
use crate::table::{Child, Place, Table};
use crate::thing::Thing;
use hs_base::{NoMemory, TableNo};
use indexmap::IndexMap;
use std::alloc::Global;
use std::marker::Model;

/// The tables with their columns, constraints and indexes. Contracts see the list of these things in the order of
/// creation.
#[derive(Drop)]
pub struct Catalog {
    things: Vec<Thing>,
    // What follows serves look-ups.
    // Each table by its number.
    tables: IndexMap<u64, Table>,
    // The number of each table by its name, in the order of creation.
    numbers: IndexMap<String, TableNo>,
    // The table of each constraint and index by its name, in the order of creation.
    owners: IndexMap<String, TableNo>,
    children: Children,
}

impl Model for Catalog {
    ghost use Rattle.std.specs.Prelude.{List};
    ghost use Rattle.hs_schema.specs.declared.thing.Thing.{Thing};
    ghost use Rattle.std.specs.Coded.{codes};
    ghost use Rattle.hs_plan.specs.contracts.expression.Expr as expression;

    ghost Value = { List Thing };

    ghost coded = { Prim.hlevel (codes, expression.the_row.coded) };

    ghost use Rattle.hs_schema.specs.Kept.{IsKept};

    ghost view = { λ c. c.things.items };

    ghost invariant = { λ c. IsKept c.things.items c.tables.entries c.numbers.entries c.owners.entries c.children.lists.entries };
}

impl Catalog {
    /// The empty catalogue. Takes no memory.
    pub fn new(alloc: Global) -> Catalog
        ensures { result ≡ [] }
    {
        Catalog {
            things: Vec::new(alloc),
            tables: IndexMap::new(alloc),
            numbers: IndexMap::new(alloc),
            owners: IndexMap::new(alloc),
            children: Children::new(alloc),
        }
    }

    /// Where it takes its memory.
    pub fn alloc(&self) -> Global {
        *self.things.allocator()
    }

    /// Its things in the order of creation, each with the change number of its definition.
    pub fn things(&self) -> &[Thing]
        ensures { result.now ≡ self.now }
    {
        &self.things
    }

    /// How many tables there are.
    pub fn count_tables(&self) -> usize
        ensures { result ≡ length (spec.named self.now) }
    {
        self.numbers.len()
    }

    /// The table of a name: None exactly where no table has it.
    pub fn table(&self, name: &str) -> Option<&Table>
        ensures { option_copied result ≡ spec.table_named self.now name.now }
    {
        let Some(number) = self.number_of(name) else {
            return None;
        };
        self.table_numbered(number)
    }

    /// The table of a number: None exactly where no table has it.
    pub fn table_numbered(&self, number: TableNo) -> Option<&Table>
        ensures { option_copied result ≡ spec.table_numbered self.now number }
    {
        self.tables.get(&number.0)
    }

    /// Where the constraint or the index of a name is: None exactly where none has it.
    pub fn constraint(&self, name: &str) -> Option<Place>
        ensures { result ≡ spec.place_of self.now name.now }
    {
        let Some(table) = self.owner_of(name) else {
            return None;
        };
        let Some(found) = self.table_numbered(table) else {
            return None;
        };
        found.place_of(name)
    }

    /// The place of a constraint or an index among those of all tables, in the order of creation.
    pub fn order_of(&self, name: &str) -> Option<usize>
        ensures { result ≡ spec.order_of self.now name.now }
    {
        self.owners.get_index_of(name)
    }

    /// The foreign keys that reference the table of a name, in the order of creation.
    pub fn children(&self, parent: &str) -> &[Child]
        ensures { result.now ≡ spec.children_of self.now parent.now }
    {
        self.children.of(parent)
    }

    /// A copy, which equals its source. An `Err` is want of memory, and what was copied by then is given back.
    pub fn copy(&self) -> Result<Catalog, NoMemory>
        ensures { IfOk result (λ copied. copied ≡ self.now) }
    {
        let alloc = self.alloc();
        Ok(Catalog {
            things: copy_things(&self.things, alloc)?,
            tables: copy_tables(&self.tables, alloc)?,
            numbers: copy_names(&self.numbers)?,
            owners: copy_names(&self.owners)?,
            children: self.children.copy()?,
        })
    }

    // The number of the table of a name.
    fn number_of(&self, name: &str) -> Option<TableNo>
        ensures { result ≡ spec.number_of self.now name.now }
    {
        self.numbers.get(name).copied()
    }

    // The table that has the constraint or the index of a name.
    fn owner_of(&self, name: &str) -> Option<TableNo>
        ensures { result ≡ spec.owner_of self.now name.now }
    {
        self.owners.get(name).copied()
    }
}
