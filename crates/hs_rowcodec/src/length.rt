// How many bytes the encoding of a row has.
ghost use Rattle.std.specs.Prelude.{◌≡◌, ◌≤◌, true, length, min};
ghost use Rattle.hs_values.specs.SqlType.{fits_of, row_fits};
ghost use Rattle.hs_rowcodec.specs.Encoding.{value_bytes, row_bytes, is_storable, are_storable};

use hs_values::{Row, SqlType, Types, Value};

#[tactic(auto, unfolding(crate::specs::Encoding::signed_bytes), using(crate::proofs::Texts::text_is_short))]
/// How many bytes a value has.
fn value_len(value: &Value, sql_type: &SqlType) -> usize
    requires fits { fits_of sql_type.now value.now ≡ true }
    requires storable { is_storable sql_type.now ≡ true }
    ensures { result ≡ length (value_bytes sql_type.now value.now) }
{
    match value {
        Value::Null => 1,
        Value::Int(_) => match sql_type {
            SqlType::Small => 3,
            SqlType::Integer => 5,
            _ => 9,
        },
        Value::Dec(_) => 17,
        Value::Text(text) => 3 + text.as_str().len(),
        Value::Bool(_) => 2,
        Value::Day(_) => 5,
        Value::Micros(_) => 9,
    }
}

/// Whether the length of each of a type's texts fits 2 bytes.
fn is_storable(sql_type: &SqlType) -> bool
    ensures { result ≡ is_storable sql_type.now }
{
    match sql_type {
        SqlType::Varchar { max } => *max <= 16_383,
        _ => true,
    }
}

/// How many bytes the values of a row have.
fn values_len(row: &[Value], types: &[SqlType]) -> usize
    requires fits { row_fits types.now row.now ≡ true }
    requires storable { are_storable types.now ≡ true }
    ensures { result ≡ min (length (row_bytes types.now row.now)) usize.MAX }
{
    let mut len = 0usize;
    for (i, sql_type) in types.iter().enumerate() {
        len = len.saturating_add(value_len(&row[i], sql_type));
    }
    len
}

/// How many bytes the encoding of a row has, without writing it: up to `usize::MAX`, which no row in memory
/// comes near. The row has one value for each of the types, each one of its own type's. A VARCHAR has at most
/// 16,383 characters. Takes no memory.
pub fn encoded_len(row: &Row, types: &Types) -> usize
    requires fits { row_fits types.now row.now ≡ true }
    requires storable { are_storable types.now ≡ true }
    ensures { result ≡ min (length (row_bytes types.now row.now)) usize.MAX }
{
    values_len(row.as_slice(), types.as_slice())
}

/// Whether the lengths of the types' texts fit 2 bytes each: a VARCHAR has at most 16,383 characters, of at
/// most 4 bytes each. Takes no memory.
pub fn are_storable(types: &Types) -> bool
    ensures { result ≡ are_storable types.now }
{
    types
        .as_slice()
        .iter()
        .all(|sql_type| is_storable(sql_type))
}
