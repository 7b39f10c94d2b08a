// Looks at rows that were copied.
ghost use Rattle.std.specs.Prelude.{◌≡◌};
ghost use Rattle.std.specs.Option.{option_copied};
ghost use Rattle.hs_before.specs.Held.{found_in, rows_of};

use crate::held_rows::{HeldRows, TableRows};
use hs_base::{NoMemory, RowName, RowNos, TableNo};
use hs_cascade::RowsBefore;
use hs_keyed::KeyedRows;
use hs_values::Row;

// The rows that were copied last of a table: None where none were.
fn found(tables: &[TableRows], table: TableNo) -> Option<&KeyedRows>
    ensures { option_copied result ≡ found_in tables.now table.0 }
{
    let mut found = None;
    for each in tables {
        if each.table.0 == table.0 {
            found = Some(&each.rows);
        }
    }
    found
}

impl HeldRows {
    /// The rows of a table, none where they weren't copied. Takes no memory.
    pub fn rows(&self, table: TableNo) -> &KeyedRows
        ensures { result.now ≡ rows_of self.now table.0 }
    {
        match found(&self.tables, table) {
            Some(rows) => rows,
            None => &self.none,
        }
    }
}

impl RowsBefore for HeldRows {
    ghost use Rattle.hs_before.specs.Held.{rows_of};

    ghost maps = { rows_of };

    fn row(&self, name: RowName) -> Option<&Row> {
        self.rows(name.table).get(name.row)
    }

    fn rows_with(&self, table: TableNo, columns: &[u32], key: &Row) -> Result<RowNos, NoMemory> {
        self.rows(table).rows_with(columns, key)
    }

    fn index_among(&self, table: TableNo, columns: &[u32]) -> Option<&[u32]> {
        self.rows(table).index_among(columns)
    }
}
