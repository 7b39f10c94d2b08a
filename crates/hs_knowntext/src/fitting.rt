// Changes of rows of a table.
ghost use Rattle.std.specs.Prelude.{◌≡◌, true, IsTrue};
ghost use Rattle.std.specs.List.{AllByRecursion};
ghost use Rattle.hs_rowlimit.specs.Long.{puts_long};
ghost use Rattle.hs_rowtext.specs.Lines.{IsRowNo};
ghost use Rattle.hs_rowtext.specs.Rows.{types_of};
ghost use Rattle.hs_values.specs.SqlType.{fits_of, row_fits};
ghost use Rattle.hs_valuetext.specs.Values.{IsSpelled};
ghost use Rattle.hs_knowntext.specs.Known.{FitsTable};

use hs_base::RowNo;
use hs_plan::{Change, Column};
use hs_rowlimit::has_long_row;
use hs_schema::{Catalog, Table};
use hs_values::{SqlType, Value, fits};
use std::slice::from_ref;

// Whether a value is one of a type's. A text is UTF-8 in any case.
fn is_of(sql_type: &SqlType, value: &Value) -> bool
    ensures fits { result ≡ fits_of sql_type.now value.now }
    ensures spelled { IsSpelled value.now }
{
    match value {
        Value::Text(text) => {
            let _text = text.as_str();
            fits(sql_type, value)
        }
        _ => fits(sql_type, value),
    }
}

// Whether a row has one value of each column's type.
fn fits_columns(columns: &[Column], row: &[Value]) -> bool
    ensures fits { result ≡ row_fits (types_of columns.now) row.now }
    ensures spelled { result ≡ true → AllByRecursion IsSpelled row.now }
{
    if columns.len() != row.len() {
        return false;
    }
    for (column, value) in columns.iter().zip(row) {
        if !is_of(&column.data_type, value) {
            return false;
        }
    }
    true
}

// Whether rows have such a number.
fn is_row_no(number: RowNo) -> bool
    ensures { IsTrue result → IsRowNo number }
{
    number.0 > 0
}

/// Whether a change is one of a row with such values and such a number as those of a table have. Takes no memory.
pub(crate) fn fits_table(table: &Table, change: &Change) -> bool
    ensures { IsTrue result → FitsTable table.now change.now }
{
    let columns = table.columns.as_slice();
    match change {
        Change::Insert(_, row) => fits_columns(columns, row.as_slice()),
        Change::Put(_, number, row) => {
            is_row_no(*number) && fits_columns(columns, row.as_slice())
        }
        Change::Delete(_, number) => is_row_no(*number),
        Change::Define(_) => false,
    }
}

/// Whether the row that a change puts has more than 4,000 bytes. Takes no memory.
pub(crate) fn is_long(catalog: &Catalog, change: &Change) -> bool
    ensures { result ≡ puts_long catalog.now change.now }
{
    has_long_row(catalog, from_ref(change))
}
