// The rows of tables, as they are and as they were.
ghost use Rattle.std.specs.Prelude.{◌≡◌};
ghost use Rattle.std.specs.FinMap.{empty};

mod changing;
mod copying;
mod looking;

use hs_keyed::KeyedRows;
use hs_values::Row;
use std::alloc::Global;
use std::collections::BTreeMap;

/// The rows of all tables in memory. Of each row that was changed it keeps what the row was before the first change,
/// until the changes are accepted. Contracts see the rows as they are and as they were, and which were touched.
#[derive(Drop)]
pub struct Draft {
    // Each table that has a row, or an index.
    tables: BTreeMap<u64, KeyedRows>,
    // For each table the rows that were changed, as they were before: None where a row wasn't there.
    olds: BTreeMap<u64, BTreeMap<u64, Option<Row>>>,
    // The rows of every other table.
    none: KeyedRows,
    alloc: Global,
    ghost no_rows: { none ≡ empty },
}
