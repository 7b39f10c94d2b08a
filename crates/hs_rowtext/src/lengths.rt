// How many bytes the encoding of a row has.
ghost use Rattle.std.specs.Prelude.{◌≡◌, true, length, min};
ghost use Rattle.hs_values.specs.SqlType.{fits_of, row_fits};
ghost use Rattle.hs_rowcodec.specs.Encoding.{value_bytes, row_bytes};
ghost use Rattle.hs_rowtext.specs.Rows.{types_of};

use hs_plan::Column;
use hs_values::{SqlType, Value};

/// The most bytes that the encoding of a row has.
pub const MOST_ROW_BYTES: usize = 4_000;

#[tactic(auto, unfolding(hs_rowcodec::specs::Encoding::signed_bytes))]
/// How many bytes a value has.
fn value_len(value: &Value, sql_type: &SqlType) -> usize
    requires { fits_of sql_type.now value.now ≡ true }
    ensures { result ≡ min (length (value_bytes sql_type.now value.now)) usize.MAX }
{
    match value {
        Value::Null => 1,
        Value::Int(_) => match sql_type {
            SqlType::Small => 3,
            SqlType::Integer => 5,
            _ => 9,
        },
        Value::Dec(_) => 17,
        Value::Text(text) => text.as_str().len().saturating_add(3),
        Value::Bool(_) => 2,
        Value::Day(_) => 5,
        Value::Micros(_) => 9,
    }
}

/// How many bytes the values of a row of these columns have.
pub(crate) fn row_len(row: &[Value], columns: &[Column]) -> usize
    requires { row_fits (types_of columns.now) row.now ≡ true }
    ensures { result ≡ min (length (row_bytes (types_of columns.now) row.now)) usize.MAX }
{
    let mut len = 0usize;
    for (i, column) in columns.iter().enumerate() {
        len = len.saturating_add(value_len(&row[i], &column.data_type));
    }
    len
}
