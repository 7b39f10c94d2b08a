// Copies of the rows of tables, with their numbers.
ghost use Rattle.std.specs.Prelude.{◌≡◌};
ghost use Rattle.std.specs.FinMap.{empty};

use hs_base::TableNo;
use hs_keyed::KeyedRows;

/// A table's number, and copies of its rows.
#[derive(Drop)]
pub(crate) struct TableRows {
    pub(crate) table: TableNo,
    pub(crate) rows: KeyedRows,
}

/// Copies of the rows of tables, with their numbers. Contracts see the rows of each table.
#[derive(Drop)]
pub struct HeldRows {
    pub(crate) tables: Vec<TableRows>,
    // The rows of every other table.
    pub(crate) none: KeyedRows,
    ghost no_rows: { none ≡ empty },
}
