// Changes of rows.
ghost use Rattle.std.specs.Prelude.{◌≡◌, ℕ, false, is_some};
ghost use Rattle.hs_applicable.specs.Applicable as spec;
ghost use Rattle.hs_turns.specs.Database.{Database, is_definition};
ghost use Rattle.hs_draft.specs.Drafted.{after};
ghost use Rattle.hs_language.specs.Validity.{puts_long};
ghost use Rattle.hs_rowtext.specs.Rows.{types_of};
ghost use Rattle.hs_schema.specs.Catalogue.{table_numbered};
ghost use Rattle.hs_values.specs.SqlType.{row_fits};

use hs_base::{RowNo, TableNo};
use hs_draft::Draft;
use hs_plan::{Change, Column};
use hs_rowlimit::has_long_row;
use hs_schema::Catalog;
use hs_values::{Value, fits};
use std::slice::from_ref;

// Whether a row has one value of each column's type.
fn fits_columns(columns: &[Column], row: &[Value]) -> bool
    ensures { result ≡ row_fits (types_of columns.now) row.now }
{
    if columns.len() != row.len() {
        return false;
    }
    for (column, value) in columns.iter().zip(row) {
        if !fits(&column.data_type, value) {
            return false;
        }
    }
    true
}

// Whether a table is there, and its columns are those of a row.
fn fits_table(cat: &Catalog, table: TableNo, row: &[Value]) -> bool
    ensures { result ≡ spec.fits_table cat.now table row.now }
{
    match cat.table_numbered(table) {
        Some(found) => fits_columns(found.columns.as_slice(), row),
        None => false,
    }
}

fn has_table(cat: &Catalog, table: TableNo) -> bool
    ensures { result ≡ is_some (table_numbered cat.now table) }
{
    cat.table_numbered(table).is_some()
}

// Whether a row that a change puts is too long.
fn is_long(cat: &Catalog, change: &Change) -> bool
    ensures { result ≡ puts_long cat.now change.now }
{
    has_long_row(cat, from_ref(change))
}

fn has_row(draft: &Draft, table: TableNo, row: RowNo) -> bool
    ensures { result ≡ spec.has_row (after draft.now) table row }
{
    draft.rows(table).get(row).is_some()
}

/// Whether a change of a row may be made on a database, with the number that the row has behind the commit: its table is there,
/// and a row that is put or deleted too; the values that it gets fit the columns, and take at most 4,000 bytes. Takes no memory.
pub(crate) fn may_make_row(cat: &Catalog, draft: &Draft, change: &Change) -> bool
    ensures { (db : Database) → db.things ≡ cat.now → ((t : ℕ) → after draft.now t ≡ db.rows t) → is_definition change.now ≡ false → result ≡ spec.may_make db change.now }
{
    match change {
        Change::Insert(table, row) => {
            fits_table(cat, *table, row.as_slice()) && !is_long(cat, change)
        }
        Change::Put(table, number, row) => {
            has_row(draft, *table, *number)
                && (fits_table(cat, *table, row.as_slice()) && !is_long(cat, change))
        }
        Change::Delete(table, number) => {
            has_table(cat, *table) && has_row(draft, *table, *number)
        }
        Change::Define(_) => false,
    }
}
