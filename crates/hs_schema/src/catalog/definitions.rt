// What definitions make of a catalogue.
ghost use Rattle.std.specs.Prelude.{◌≡◌, [], ◌++◌, ◌∷◌, ◌≤◌, ◌<◌, nat_eq, true, Option, None, Some, string_bytes, OnOk, OnErr};
ghost use Rattle.std.specs.List.{All};
ghost use Rattle.std.specs.Option.{option_map_or, option_map};
ghost use Rattle.hs_schema.specs.Catalogue as spec;
ghost use Rattle.hs_schema.specs.Kept.{IsGrown};

use super::Catalog;
use crate::making::{
    column_thing, constraint_things, copy_columns, copy_constraints, name_table, own_all,
};
use crate::removal::{drop_from, drop_name, drop_names, drop_thing, drop_things};
use crate::table::Table;
use crate::thing::{Part, Thing};
use hs_base::{NoMemory, TableNo};
use hs_plan::{Column, Constraint, Definition, Rule, Storage};
use hs_values::Name;
use sqlite_items::Items;
use std::slice::from_ref;

impl Catalog {
    /// Makes a definition. After an `Err`, which is want of memory, nothing is changed.
    pub fn define(&mut self, d: &Definition, number: u64) -> Result<(), NoMemory>
        requires bound { spec.IsBound self.old d.now }
        requires next { spec.IsNext self.old d.now number }
        ensures ok { OnOk result (self.new ≡ spec.after self.old d.now number) }
        ensures err { OnErr result (self.new ≡ self.old) }
    {
        match d {
            Definition::CreateTable {
                storage,
                name,
                columns,
                constraints,
            } => self.create_table(
                *storage,
                name,
                columns.as_slice(),
                constraints.as_slice(),
                number,
            ),
            Definition::DropTable(name) => {
                if let Some(table) = self.number_of(name.as_str()) {
                    self.drop_table(table);
                }
                Ok(())
            }
            Definition::AddColumn {
                table,
                column,
                constraints,
            } => self.alter(table.as_str(), Some(column), constraints.as_slice(), number),
            Definition::AddConstraint { table, constraint } => {
                self.alter(table.as_str(), None, from_ref(constraint), number)
            }
            Definition::DropConstraint { table, name } => {
                if let Some(table) = self.number_of(table.as_str()) {
                    self.drop_constraint(table, name.as_str());
                }
                Ok(())
            }
            Definition::CreateIndex {
                table,
                name,
                columns,
            } => {
                let alloc = self.alloc();
                let index = Constraint {
                    name: name.copy()?,
                    rule: Rule::Index(Items::from_slice(alloc, columns.as_slice())?),
                };
                self.alter(table.as_str(), None, from_ref(&index), number)
            }
            Definition::DropIndex(name) => {
                if let Some(table) = self.owner_of(name.as_str()) {
                    self.drop_constraint(table, name.as_str());
                }
                Ok(())
            }
            Definition::SetControl(_) | Definition::SetDefaultLevel { .. } => Ok(()),
        }
    }

    fn create_table(
        &mut self,
        storage: Storage,
        name: &Name,
        columns: &[Column],
        constraints: &[Constraint],
        number: u64,
    ) -> Result<(), NoMemory>
        requires new { spec.number_of self.old name.now ≡ None }
        requires free { spec.AreNew self.old constraints.now }
        requires next { All (λ t. t.number < number) self.old }
        ensures ok { OnOk result (self.new ≡ self.old ++ spec.table_made number storage name.now columns.now constraints.now) }
        ensures err { OnErr result (self.new ≡ self.old) }
    {
        let alloc = *self.things.allocator();
        let table = TableNo(number);
        let made = Table {
            name: name.copy()?,
            number: table,
            storage,
            columns: copy_columns(columns, alloc)?,
            constraints: copy_constraints(constraints, alloc)?,
        };
        let mut more = Vec::new(alloc);
        more.push(Thing {
            number,
            table,
            part: Part::Table {
                name: name.copy()?,
                storage,
                columns: copy_columns(columns, alloc)?,
            },
        })?;
        constraint_things(constraints, number, table, &mut more)?;
        let key = name.copy()?.into_string();
        self.add(made, Some(key), more)
    }

    // Adds a column or none, and constraints, to the table of a name.
    fn alter(
        &mut self,
        name: &str,
        column: Option<&Column>,
        constraints: &[Constraint],
        number: u64,
    ) -> Result<(), NoMemory>
        requires free { spec.AreNew self.old constraints.now }
        requires next { All (λ t. t.number ≤ number) self.old }
        ensures ok { OnOk result (self.new ≡ spec.with_more self.old name.now (spec.parts_made number (option_map (λ c. c.now) column.entry) constraints.now)) }
        ensures err { OnErr result (self.new ≡ self.old) }
    {
        let alloc = *self.things.allocator();
        let Some(table) = self.number_of(name) else {
            return Ok(());
        };
        let Some(found) = self.table_numbered(table) else {
            return Ok(());
        };
        let made = found.grown(column, constraints, alloc)?;
        let mut more = Vec::new(alloc);
        column_thing(column, number, table, &mut more)?;
        constraint_things(constraints, number, table, &mut more)?;
        self.add(made, None, more)
    }

    // Puts things of one table behind the others, with the table as it then stands, and its name where it is new.
    fn add(&mut self, table: Table, name: Option<String>, more: Vec<Thing>) -> Result<(), NoMemory>
        requires { IsGrown self.old table (option_map (λ n. string_bytes n) name) more.items }
        ensures ok { OnOk result (self.new ≡ self.old ++ more.items) }
        ensures err { OnErr result (self.new ≡ self.old) }
    {
        let mut more = more;
        let number = table.number;
        let kept = self.owners.len();
        self.things.reserve(more.len())?;
        self.tables.reserve(1)?;
        self.numbers.reserve(1)?;
        own_all(&mut self.owners, &more)?;
        if let Err(e) = self.children.add_all(&more) {
            self.owners.truncate(kept);
            return Err(e);
        }
        name_table(&mut self.numbers, name, number);
        let _old = self.tables.insert(number.0, table).unwrap();
        self.things.append(&mut more).unwrap();
        Ok(())
    }

    fn drop_table(&mut self, table: TableNo)
        ensures { self.new ≡ spec.without_table self.old table }
    {
        drop_things(&mut self.things, table);
        self.tables.shift_remove(&table.0);
        drop_names(&mut self.numbers, table);
        drop_names(&mut self.owners, table);
        self.children.forget_table(table);
    }

    fn drop_constraint(&mut self, table: TableNo, name: &str)
        ensures { self.new ≡ spec.without_constraint self.old name.now table }
    {
        drop_thing(&mut self.things, table, name);
        drop_from(&mut self.tables, table, name);
        drop_name(&mut self.owners, table, name);
        self.children.forget_constraint(table, name);
    }
}
