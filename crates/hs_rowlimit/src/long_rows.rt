// Rows whose encoding is too long.
ghost use Rattle.std.specs.Prelude.{◌≡◌, length, min};
ghost use Rattle.hs_rowcodec.specs.Encoding.{value_bytes, row_bytes};
ghost use Rattle.hs_rowlimit.specs.Long as spec;

use hs_base::TableNo;
use hs_plan::{Change, Column};
use hs_schema::Catalog;
use hs_values::{SqlType, Value};

/// The most bytes that the encoding of a row has.
pub const MOST_ROW_BYTES: usize = 4_000;

#[tactic(auto, unfolding(hs_rowcodec::specs::Encoding::signed_bytes))]
// How many bytes a value has.
fn value_len(value: &Value, sql_type: &SqlType) -> usize
    ensures { result ≡ min (length (value_bytes sql_type.now value.now)) usize.MAX }
{
    match value {
        Value::Null => 1,
        Value::Int(_) => match sql_type {
            SqlType::Small => 3,
            SqlType::Integer => 5,
            _ => 9,
        },
        Value::Dec(_) => 17,
        Value::Text(text) => text.as_str().len().saturating_add(3),
        Value::Bool(_) => 2,
        Value::Day(_) => 5,
        Value::Micros(_) => 9,
    }
}

// How many bytes the values of a row of these columns have.
fn row_len(row: &[Value], columns: &[Column]) -> usize
    ensures { result ≡ min (length (row_bytes (spec.types_of columns.now) row.now)) usize.MAX }
{
    let mut len = 0usize;
    for i in 0..columns.len() {
        if i >= row.len() {
            return len;
        }
        len = len.saturating_add(value_len(&row[i], &columns[i].data_type));
    }
    len
}

fn columns_of(cat: &Catalog, table: TableNo) -> &[Column]
    ensures { result.now ≡ spec.columns_in cat.now table }
{
    match cat.table_numbered(table) {
        Some(table) => table.columns.as_slice(),
        None => &[],
    }
}

fn is_long(cat: &Catalog, table: TableNo, row: &[Value]) -> bool
    ensures { result ≡ spec.is_long cat.now table row.now }
{
    row_len(row, columns_of(cat, table)) > MOST_ROW_BYTES
}

fn puts_long(cat: &Catalog, change: &Change) -> bool
    ensures { result ≡ spec.puts_long cat.now change.now }
{
    match change {
        Change::Insert(table, row) => is_long(cat, *table, row.as_slice()),
        Change::Put(table, _, row) => is_long(cat, *table, row.as_slice()),
        Change::Delete(_, _) => false,
        Change::Define(_) => false,
    }
}

/// Whether changes put a row whose encoding has more than 4,000 bytes: a byte for each value, and for one that isn't NULL
/// those of its type behind it. Takes no memory.
pub fn has_long_row(cat: &Catalog, changes: &[Change]) -> bool
    ensures { result ≡ spec.has_long cat.now changes.now }
{
    for change in changes {
        if puts_long(cat, change) {
            return true;
        }
    }
    false
}
