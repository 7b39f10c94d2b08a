// Rows as they are read.
ghost use Rattle.std.specs.Prelude.{◌≡◌, ◌∷◌, [], IfOk};
ghost use Rattle.hs_valuetext.specs.Finding.{Finds, Knows};
ghost use Rattle.hs_rowtext.specs.Rows.{types_of, IsBehindComma, Completes, AreValues, IsRowText};

use crate::lengths::{MOST_ROW_BYTES, row_len};
use hs_plan::Column;
use hs_values::{Row, SqlType, Value};
use hs_valuetext::{behind, read_value};
use std::alloc::{AllocError, Global};

/// A value behind a comma, and what is behind it.
fn next_value<'a>(
    alloc: Global,
    text: &'a str,
    sql_type: &SqlType,
) -> Result<Option<(Value, &'a str)>, AllocError>
    ensures { IfOk result (λ found. Finds (λ v. v) (IsBehindComma sql_type.now text.now) found) }
{
    match behind(text, ",") {
        Some(inner) => read_value(alloc, inner, sql_type),
        None => Ok(None),
    }
}

/// The values that were read before, and behind them those of these columns, each behind a comma, which with a closing
/// parenthesis are all of the text.
fn read_others(
    alloc: Global,
    text: &str,
    columns: &[Column],
    mut values: Vec<Value>,
) -> Result<Option<Vec<Value>>, AllocError>
    ensures { IfOk result (λ found. Knows (λ v. v.items) (Completes values.items (types_of columns.now) text.now) found) }
{
    let mut rest = text;
    for column in columns {
        match next_value(alloc, rest, &column.data_type) {
            Ok(Some((value, more))) => {
                values.push(value)?;
                rest = more;
            }
            Ok(None) => return Ok(None),
            Err(error) => return Err(error),
        }
    }
    if rest == ")" {
        Ok(Some(values))
    } else {
        Ok(None)
    }
}

/// A list of one value, with room for more.
fn one_value(alloc: Global, value: Value, room: usize) -> Result<Vec<Value>, AllocError>
    ensures { IfOk result (λ v. v.items ≡ value ∷ []) }
{
    let mut values = Vec::with_capacity(alloc, room)?;
    values.push(value)?;
    Ok(values)
}

/// The value of the first column, and behind it those of the others, which with commas between and a closing parenthesis are
/// all of the text.
fn read_first(
    alloc: Global,
    text: &str,
    first: &Column,
    others: &[Column],
) -> Result<Option<Vec<Value>>, AllocError>
    ensures { IfOk result (λ found. Knows (λ v. v.items) (AreValues (first.now.data_type ∷ types_of others.now) text.now) found) }
{
    match read_value(alloc, text, &first.data_type) {
        Ok(Some((value, rest))) => match one_value(alloc, value, others.len()) {
            Ok(values) => read_others(alloc, rest, others, values),
            Err(error) => Err(error),
        },
        Ok(None) => Ok(None),
        Err(error) => Err(error),
    }
}

/// No values, where a closing parenthesis is all of the text.
fn read_nothing(alloc: Global, text: &str) -> Option<Vec<Value>>
    ensures { Knows (λ v. v.items) (AreValues [] text.now) result }
{
    if text == ")" {
        Some(Vec::new(alloc))
    } else {
        None
    }
}

/// The values of these columns, which with commas between and a closing parenthesis are all of the text.
fn read_values(
    alloc: Global,
    text: &str,
    columns: &[Column],
) -> Result<Option<Vec<Value>>, AllocError>
    ensures { IfOk result (λ found. Knows (λ v. v.items) (AreValues (types_of columns.now) text.now) found) }
{
    match columns.split_first() {
        Some((first, others)) => read_first(alloc, text, first, others),
        None => Ok(read_nothing(alloc, text)),
    }
}

/// The row of these columns whose values, with commas between and a closing parenthesis, are all of the text. Its encoding
/// has at most 4,000 bytes.
pub(crate) fn read_row(
    alloc: Global,
    text: &str,
    columns: &[Column],
) -> Result<Option<Row>, AllocError>
    ensures { IfOk result (λ found. Knows (λ r. r) (IsRowText columns.now text.now) found) }
{
    let Some(values) = read_values(alloc, text, columns)? else {
        return Ok(None);
    };
    if row_len(&values, columns) <= MOST_ROW_BYTES {
        Ok(Some(Row::from_vec(values)))
    } else {
        Ok(None)
    }
}
