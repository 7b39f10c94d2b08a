// The tables of a FROM.
ghost use Rattle.std.specs.Prelude.{◌≡◌, map, IfOk};
ghost use Rattle.std.specs.Option.{option_map};
ghost use Rattle.hs_scope.specs.Names.{column_of, named_as};
ghost use Rattle.hs_scope.specs.Sought.{is_asked};

use crate::column::{OutputColumn, columns_of};
use hs_ast::{Identifier, TableReference};
use hs_base::NoMemory;
use hs_plan::Column;
use hs_values::Name;
use sqlite_items::Items;
use std::alloc::Global;

/// A table or a query of a FROM, under the name that it has there, with its columns.
#[derive(Drop)]
pub struct FromTable {
    pub name: Name,
    pub columns: Items<OutputColumn>,
}

impl FromTable {
    /// A table under a name, with its columns. An `Err` is want of memory.
    pub fn of_table(alloc: Global, name: &str, columns: &[Column]) -> Result<FromTable, NoMemory>
        ensures name { IfOk result (λ made. made.name ≡ name.now) }
        ensures columns { IfOk result (λ made. made.columns ≡ map column_of columns.now) }
    {
        Ok(FromTable {
            name: Name::from_text(alloc, name)?,
            columns: columns_of(columns, alloc)?,
        })
    }

    /// Whether it is of the name that is asked for, or any is.
    pub(crate) fn is_asked(&self, table: Option<&str>) -> bool
        ensures { result ≡ is_asked (option_map (λ t. t.now) table.entry) self.now.name }
    {
        match table {
            Some(table) => table == self.name.as_str(),
            None => true,
        }
    }
}

/// The name that a table has in its FROM, with its place: the alias alone where it has one.
pub fn named_as(table: &TableReference) -> &Identifier
    ensures { result.now ≡ named_as table.now }
{
    match table {
        TableReference::Named { name, alias } => match alias {
            Some(alias) => alias,
            None => name,
        },
        TableReference::Derived { alias, .. } => alias,
    }
}
