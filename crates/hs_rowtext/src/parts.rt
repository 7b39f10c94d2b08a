// What lines have behind the names of their tables.
ghost use Rattle.std.specs.Prelude.{IfOk};
ghost use Rattle.hs_valuetext.specs.Finding.{Finds, Knows};
ghost use Rattle.hs_rowtext.specs.Lines.{IsNumberPart, IsLastNumber, IsValuesPart, IsNumberedPart, IsBehind};

use crate::numbers::read_number;
use crate::rows::read_row;
use crate::verb::Verb;
use hs_base::RowNo;
use hs_plan::{Change, Column};
use hs_schema::Table;
use hs_values::Row;
use hs_valuetext::behind;
use std::alloc::{AllocError, Global};

/// ` ROW r`, and what is behind it.
fn read_number_part(text: &str) -> Option<(RowNo, &str)>
    ensures { Finds (λ n. n) (IsNumberPart text.now) result }
{
    let digits = behind(text, " ROW ")?;
    let (number, rest) = read_number(digits)?;
    if number == 0 {
        None
    } else {
        Some((RowNo(number), rest))
    }
}

/// ` ROW r`, which is all of the text.
fn read_last_number(text: &str) -> Option<RowNo>
    ensures { Knows (λ n. n) (IsLastNumber text.now) result }
{
    let (number, rest) = read_number_part(text)?;
    if rest.is_empty() { Some(number) } else { None }
}

/// ` VALUES(..)`, which is all of the text.
fn read_values_part(
    alloc: Global,
    text: &str,
    columns: &[Column],
) -> Result<Option<Row>, AllocError>
    ensures { IfOk result (λ found. Knows (λ r. r) (IsValuesPart columns.now text.now) found) }
{
    match behind(text, " VALUES(") {
        Some(values) => read_row(alloc, values, columns),
        None => Ok(None),
    }
}

/// ` ROW r VALUES(..)`, which is all of the text.
pub(crate) fn read_numbered_part(
    alloc: Global,
    text: &str,
    columns: &[Column],
) -> Result<Option<(RowNo, Row)>, AllocError>
    ensures { IfOk result (λ found. Knows (λ p. p) (IsNumberedPart columns.now text.now) found) }
{
    let Some((number, values)) = read_number_part(text) else {
        return Ok(None);
    };
    match read_values_part(alloc, values, columns)? {
        Some(row) => Ok(Some((number, row))),
        None => Ok(None),
    }
}

/// The row's new values, where ` ROW r VALUES(..)` is all of the text.
fn read_update(alloc: Global, table: &Table, text: &str) -> Result<Option<Change>, AllocError>
    ensures { IfOk result (λ found. Knows (λ c. c) (IsBehind table.now Verb.Update text.now) found) }
{
    match read_numbered_part(alloc, text, table.columns.as_slice()) {
        Ok(Some((number, row))) => Ok(Some(Change::Put(table.number, number, row))),
        Ok(None) => Ok(None),
        Err(error) => Err(error),
    }
}

/// The change that a line makes whose verb this is, and which has this text behind its table's name.
pub(crate) fn read_behind(
    alloc: Global,
    verb: Verb,
    table: &Table,
    text: &str,
) -> Result<Option<Change>, AllocError>
    ensures { IfOk result (λ found. Knows (λ c. c) (IsBehind table.now verb text.now) found) }
{
    match verb {
        Verb::Insert => match read_values_part(alloc, text, table.columns.as_slice())? {
            Some(row) => Ok(Some(Change::Insert(table.number, row))),
            None => Ok(None),
        },
        Verb::Update => read_update(alloc, table, text),
        Verb::Delete => match read_last_number(text) {
            Some(number) => Ok(Some(Change::Delete(table.number, number))),
            None => Ok(None),
        },
    }
}
