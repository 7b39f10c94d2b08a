// A database in memory.
ghost use Rattle.std.specs.Prelude.{◌≡◌, ◌+◌, ◌^◌, ◌<◌, ◌≤◌, [], List, true, false, length, IfOk, OnOk};
ghost use Rattle.std.specs.List.{list_any};
ghost use Rattle.hs_turns.specs.Database.{Database, IsNumbered, apply, committed, defined, is_definition, make};
ghost use Rattle.hs_plan.specs.declared.change.Change.{Change as TheChange};
ghost use Rattle.hs_schema.specs.Catalogue.{IsBound, IsNext};
ghost use Rattle.hs_instance.specs.Instance.{IsInstance, empty_database, violated_name};
ghost use Rattle.hs_instance.specs.Staying.{are_inserts};

use crate::defining::redefined_rows;
use crate::naming::first_violated;
use crate::settings::{control_after, level_after};
use crate::settling::settle;
use hs_acting::References;
use hs_ast::{Isolation, TransactionControl};
use hs_base::NoMemory;
use hs_plan::{Change, Changes, Definition};
use hs_references::all_references;
use hs_schema::Catalog;
use hs_seated::{Seated, numbered};
use hs_values::Name;
use std::alloc::Global;
use std::slice::from_ref;

/// A database, with the changes of an open transaction on its rows.
#[derive(Drop)]
pub struct Instance {
    pub catalog: Catalog,
    /// The foreign keys of the catalogue, by the tables that they reference.
    pub keys: References,
    pub seated: Seated,
    /// How many changes were made so far.
    pub count: u64,
    /// The level of new sessions.
    pub level: Isolation,
    pub control: TransactionControl,
    pub alloc: Global,
}

impl Instance {
    /// The database before any commit: it has no things and no rows, LOCKS, and READ COMMITTED for new sessions. Takes no
    /// memory.
    pub fn new(alloc: Global) -> Instance
        ensures { IsInstance empty_database [] result }
    {
        Instance {
            catalog: Catalog::new(alloc),
            keys: References::new(alloc),
            seated: Seated::new(alloc),
            count: 0,
            level: Isolation::ReadCommitted,
            control: TransactionControl::Locks,
            alloc,
        }
    }

    /// Takes back the changes of rows that are on it. An `Err` is want of memory, and then nothing is known of the database.
    pub fn take_back(&mut self) -> Result<(), NoMemory>
        ensures { (db : Database) (seated : List TheChange) → IsInstance db seated self.old → OnOk result (IsInstance db [] self.new) }
    {
        self.seated.back(0)
    }

    // Takes back the changes that are on the rows, and makes these in their place, with the numbers that they are to have.
    fn remake(&mut self, changes: &[Change]) -> Result<(), NoMemory>
        requires { self.old.count + length changes.now ≤ 2 ^ 48 }
        ensures { (db : Database) (seated : List TheChange) → IsInstance db seated self.old → list_any is_definition changes.now ≡ false → OnOk result (IsInstance (apply db changes.now) [] self.new) }
    {
        self.seated.commit(self.count, changes)?;
        self.count += changes.len() as u64;
        Ok(())
    }

    /// Makes changes of rows with the numbers that these have behind their commit. An `Err` is want of memory, and then nothing
    /// is known of the database.
    pub fn make_rows(&mut self, changes: &Changes) -> Result<(), NoMemory>
        requires { self.old.count + length changes.now ≤ 2 ^ 48 }
        ensures { (db : Database) → IsInstance db [] self.old → list_any is_definition changes.now ≡ false → OnOk result (IsInstance (apply db changes.now) [] self.new) }
    {
        self.remake(changes.as_slice())
    }

    /// Makes one change of a row, with the number that it has behind its commit. An `Err` is want of memory, and then nothing
    /// is known of the database.
    pub fn make_row(&mut self, change: &Change) -> Result<(), NoMemory>
        requires { self.old.count < 2 ^ 48 }
        ensures { (db : Database) → IsInstance db [] self.old → is_definition change.now ≡ false → OnOk result (IsInstance (make db change.now) [] self.new) }
    {
        self.remake(from_ref(change))
    }

    /// Commits the changes of rows that are on it. The rows that they insert get the numbers of their changes. An `Err` is want
    /// of memory, and then nothing is known of the database.
    pub fn commit(&mut self, changes: &Changes) -> Result<(), NoMemory>
        requires { self.old.count + length changes.now ≤ 2 ^ 48 }
        ensures { (db : Database) → IsInstance db changes.now self.old → OnOk result (IsInstance (committed db changes.now) [] self.new) }
    {
        let made = numbered(self.alloc, self.count, changes)?;
        self.remake(made.as_slice())
    }

    /// Commits the changes that are on it, each of which inserts a row. The rows stay, and get the numbers of their changes. An
    /// `Err` is want of memory, and then nothing is known of the database.
    pub(crate) fn settle(&mut self, changes: &[Change]) -> Result<(), NoMemory>
        requires { self.old.count + length changes.now ≤ 2 ^ 48 }
        ensures { (db : Database) → IsInstance db changes.now self.old → IsNumbered db → are_inserts changes.now ≡ true → OnOk result (IsInstance (apply db changes.now) [] self.new) }
    {
        settle(self.alloc, &mut self.seated, self.count, changes)?;
        self.count += changes.len() as u64;
        Ok(())
    }

    /// Makes a definition that is bound, on which no changes of a transaction are. An `Err` is want of memory, and then nothing
    /// is known of the database.
    pub fn define(&mut self, definition: &Definition) -> Result<(), NoMemory>
        requires count { self.old.count < 2 ^ 48 }
        requires bound { IsBound self.old.catalog definition.now }
        requires next { IsNext self.old.catalog definition.now (self.old.count + 1) }
        ensures { (db : Database) → IsInstance db [] self.old → OnOk result (IsInstance (defined definition.now db) [] self.new) }
    {
        let number = self.count + 1;
        redefined_rows(&mut self.catalog, &mut self.seated, definition, number)?;
        self.keys = all_references(&self.catalog)?;
        self.control = control_after(definition, self.control);
        self.level = level_after(definition, self.level);
        self.count = number;
        Ok(())
    }

    /// The name of the first constraint, in the order of creation, that the rows violate; None where all hold. All rows are
    /// looked at. An `Err` is want of memory.
    pub fn violated(&self) -> Result<Option<Name>, NoMemory>
        ensures { (db : Database) → IsInstance db [] self.now → IfOk result (λ name. name ≡ violated_name db) }
    {
        first_violated(&self.catalog, &self.seated.rows.draft, self.alloc)
    }
}
