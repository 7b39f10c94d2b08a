// A table with all that belongs to it.
ghost use Rattle.std.specs.Prelude.{◌≡◌, ◌<◌, List, [], ◌∷◌, ◌++◌, IfOk, OnOk, filter, not, length, remove};
ghost use Rattle.std.specs.List.{position_from};
ghost use Rattle.std.specs.Option.{option_map, option_map_or};
ghost use Rattle.std.specs.Str.{bytes_eq};
ghost use Rattle.hs_schema.specs.Catalogue.{place_in};
ghost use Rattle.hs_schema.specs.Kept.{is_child, grown, without};

use crate::making::{copy_columns, copy_constraints};
use hs_base::{ConstraintNo, NoMemory, TableNo};
use hs_plan::{Column, Constraint, ReferentialAction, Storage};
use hs_values::Name;
use sqlite_items::Items;
use std::alloc::{AllocError, Global};

/// A table as it stands.
#[derive(Drop)]
pub struct Table {
    pub name: Name,
    /// The change number of its CREATE.
    pub number: TableNo,
    pub storage: Storage,
    /// The columns of its CREATE, and behind them those that were added.
    pub columns: Items<Column>,
    /// Its constraints and indexes in the order of creation.
    pub constraints: Items<Constraint>,
}

/// A constraint or an index: its table, and its number, which is its place among the table's constraints and indexes
/// in the order of creation, from 0. A number means the same one until a constraint or an index of the table is dropped.
#[derive(Clone, Copy, Debug, PartialEq, Eq)]
pub struct Place {
    pub table: TableNo,
    pub constraint: ConstraintNo,
}

/// A foreign key that references a table: the table that has it, its name, and its actions.
#[derive(Drop)]
pub struct Child {
    pub table: TableNo,
    pub constraint: Name,
    pub on_delete: ReferentialAction,
    pub on_update: ReferentialAction,
}

impl Table {
    // The place of its constraint or index of this name among them.
    fn position_of(&self, name: &str) -> Option<usize>
        ensures { result ≡ position_from (λ c. bytes_eq name.now c.name) 0 self.now.constraints }
    {
        self.constraints
            .as_slice()
            .iter()
            .position(|constraint| name == constraint.name.as_str())
    }

    /// Where its constraint or index of this name is: None exactly where none has it.
    pub fn place_of(&self, name: &str) -> Option<Place>
        ensures { result ≡ place_in name.now self.now }
    {
        match self.position_of(name) {
            Some(at) => Some(Place {
                table: self.number,
                constraint: ConstraintNo(at as u64),
            }),
            None => None,
        }
    }

    /// A copy, which equals its source.
    pub(crate) fn copy(&self, alloc: Global) -> Result<Table, NoMemory>
        ensures { IfOk result (λ copied. copied ≡ self.now) }
    {
        Ok(Table {
            name: self.name.copy()?,
            number: self.number,
            storage: self.storage,
            columns: copy_columns(self.columns.as_slice(), alloc)?,
            constraints: copy_constraints(self.constraints.as_slice(), alloc)?,
        })
    }

    /// A copy with a column or none, and with constraints, behind its own.
    pub(crate) fn grown(
        &self,
        column: Option<&Column>,
        constraints: &[Constraint],
        alloc: Global,
    ) -> Result<Table, NoMemory>
        ensures { IfOk result (λ made. made ≡ grown self.now (option_map (λ c. c.now) column.entry) constraints.now) }
    {
        let mut made = self.copy(alloc)?;
        put_column(&mut made.columns, column)?;
        made.constraints
            .append(copy_constraints(constraints, alloc)?)?;
        Ok(made)
    }

    /// Takes out the constraint or index of this name.
    pub(crate) fn drop_constraint(&mut self, name: &str)
        ensures { self.new ≡ without name.now self.old }
    {
        drop_named(&mut self.constraints, name);
    }
}

fn put_column(columns: &mut Items<Column>, column: Option<&Column>) -> Result<(), NoMemory>
    ensures { OnOk result (columns.new ≡ columns.old ++ option_map_or (λ c. c.now ∷ []) column.entry []) }
{
    match column {
        Some(column) => {
            columns.push(column.copy()?)?;
            Ok(())
        }
        None => Ok(()),
    }
}

fn take_out(constraints: &mut Items<Constraint>, at: usize)
    requires { at < length constraints.old }
    ensures { constraints.new ≡ remove constraints.old at }
{
    let _gone = constraints.remove(at);
}

fn drop_named(constraints: &mut Items<Constraint>, name: &str)
    ensures { constraints.new ≡ filter (λ c. not (bytes_eq name.now c.name)) constraints.old }
{
    for at in (0..constraints.len()).rev() {
        if let Some(constraint) = constraints.get(at) {
            if name == constraint.name.as_str() {
                take_out(constraints, at);
            }
        }
    }
}

impl Child {
    /// Whether it is this table's foreign key of this name.
    pub(crate) fn is(&self, table: TableNo, name: &str) -> bool
        ensures { result ≡ is_child table name.now self.now }
    {
        table == self.table && name == self.constraint.as_str()
    }
}

impl Clone for Child {
    ghost use Rattle.std.specs.Prelude.{◌≡◌};

    ghost is_clone = { λ child copied. copied ≡ child };

    fn clone(&self) -> Result<Child, AllocError> {
        Ok(Child {
            table: self.table,
            constraint: self.constraint.copy()?,
            on_delete: self.on_delete,
            on_update: self.on_update,
        })
    }
}
