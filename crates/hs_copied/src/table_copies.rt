// Copies of the rows of tables.
ghost use Rattle.std.specs.Prelude.{◌≡◌};
ghost use Rattle.hs_answer.specs.From.{rows_in};
ghost use Rattle.hs_copied.specs.Copies.{maps_of, rows_held};

use hs_base::TableNo;
use hs_values::{Row, RowList};
use std::alloc::Global;

/// A table's number, and copies of its rows.
#[derive(Drop)]
pub(crate) struct TableCopy {
    pub(crate) table: TableNo,
    pub(crate) rows: RowList,
}

/// Copies of the rows of tables.
#[derive(Drop)]
pub struct TableCopies {
    pub(crate) copies: Vec<TableCopy>,
}

/// The rows that were copied last of a table, and none where none were copied.
pub(crate) fn rows_held(copies: &[TableCopy], table: u64) -> &[Row]
    ensures { result.now ≡ rows_held copies.now table }
{
    let mut found: &[Row] = &[];
    for copy in copies {
        if copy.table.0 == table {
            found = copy.rows.as_slice();
        }
    }
    found
}

impl TableCopies {
    /// The allocator of the copies.
    pub fn allocator(&self) -> Global {
        *self.copies.allocator()
    }

    /// The rows of a table, in the order of their numbers, and none where the table wasn't copied. Takes no memory.
    #[tactic(auto, using(crate::proofs::Held::rows_stand))]
    pub fn rows(&self, table: TableNo) -> &[Row]
        ensures { result.now ≡ rows_in (maps_of self.now) table }
    {
        rows_held(&self.copies, table.0)
    }
}
