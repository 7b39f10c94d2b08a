// Columns as they are read.
ghost use Rattle.std.specs.Prelude.{◌≡◌, ◌∷◌, [], IfOk};
ghost use Rattle.hs_valuetext.specs.Finding.{Finds, Knows};
ghost use Rattle.hs_columntext.specs.Columns.{column_text, IsColumn, IsColumnAt, AreColumnsAt, IsLastColumn, IsNamed};
ghost use Rattle.hs_columntext.specs.Lists.{AreSome, Completes};

use crate::defaults::read_typed;
use hs_nametext::read_name;
use hs_plan::Column;
use hs_values::Name;
use hs_valuetext::behind;
use sqlite_items::Items;
use std::alloc::{AllocError, Global};

/// The column of this name whose type, with its DEFAULT or none, stands at the front, and what is behind it.
fn read_named<'a>(
    alloc: Global,
    name: &str,
    text: &'a str,
) -> Result<Option<(Column, &'a str)>, AllocError>
    ensures { IfOk result (λ found. Finds (λ c. c) (IsNamed name.now text.now) found) }
{
    match read_typed(alloc, text) {
        Ok(Some((typed, rest))) => {
            let (data_type, default) = typed;
            let name = Name::from_text(alloc, name)?;
            let column = Column {
                name,
                data_type,
                default,
            };
            Ok(Some((column, rest)))
        }
        Ok(None) => Ok(None),
        Err(error) => Err(error),
    }
}

/// The column with whose text another text begins, where a comma or a closing parenthesis is behind it, and what is behind
/// it. None exactly where there is none: where it is written otherwise, its name or its type is none, or its DEFAULT is no
/// value of the type. There is never more than one. An `Err` is want of memory.
pub fn read_column<'a>(
    alloc: Global,
    text: &'a str,
) -> Result<Option<(Column, &'a str)>, AllocError>
    ensures { IfOk result (λ found. Finds (λ c. c) (IsColumnAt text.now) found) }
{
    match read_name(alloc, text) {
        Ok(Some((name, rest))) => read_named(alloc, name.as_str(), rest),
        Ok(None) => Ok(None),
        Err(error) => Err(error),
    }
}

/// The list of one column.
fn one_column(alloc: Global, column: Column) -> Result<Items<Column>, AllocError>
    ensures { IfOk result (λ columns. columns ≡ column ∷ []) }
{
    let mut columns = Items::new(alloc);
    columns.push(column)?;
    Ok(columns)
}

/// The columns that were read before, and those that stand at the front, each behind a comma, up to a closing parenthesis;
/// and what is behind that.
fn read_others<'a>(
    alloc: Global,
    mut columns: Items<Column>,
    text: &'a str,
) -> Result<Option<(Items<Column>, &'a str)>, AllocError>
    ensures { IfOk result (λ found. Finds (λ c. c) (Completes IsColumn column_text columns text.now) found) }
{
    let mut rest = text;
    while let Some(inner) = behind(rest, ",") {
        match read_column(alloc, inner) {
            Ok(Some((column, more))) => {
                columns.push(column)?;
                rest = more;
            }
            Ok(None) => return Ok(None),
            Err(error) => return Err(error),
        }
    }
    match behind(rest, ")") {
        Some(behind) => Ok(Some((columns, behind))),
        None => Ok(None),
    }
}

/// The first column and those behind it, up to a closing parenthesis, and what is behind that.
fn read_some<'a>(
    alloc: Global,
    text: &'a str,
) -> Result<Option<(Items<Column>, &'a str)>, AllocError>
    ensures { IfOk result (λ found. Finds (λ c. c) (AreSome IsColumn column_text text.now) found) }
{
    match read_column(alloc, text) {
        Ok(Some((column, rest))) => {
            let columns = one_column(alloc, column)?;
            read_others(alloc, columns, rest)
        }
        Ok(None) => Ok(None),
        Err(error) => Err(error),
    }
}

/// The columns with whose texts, with commas between and a closing parenthesis behind them, another text begins, and what is
/// behind the parenthesis. None exactly where there are none; the list may be empty. There is never more than one. An `Err` is
/// want of memory.
pub fn read_columns<'a>(
    alloc: Global,
    text: &'a str,
) -> Result<Option<(Items<Column>, &'a str)>, AllocError>
    ensures { IfOk result (λ found. Finds (λ c. c) (AreColumnsAt text.now) found) }
{
    match behind(text, ")") {
        Some(rest) => Ok(Some((Items::new(alloc), rest))),
        None => read_some(alloc, text),
    }
}

/// The column whose text is all of the text. None exactly where there is none. There is never more than one. An `Err` is want
/// of memory.
pub fn read_last_column(alloc: Global, text: &str) -> Result<Option<Column>, AllocError>
    ensures { IfOk result (λ found. Knows (λ c. c) (IsLastColumn text.now) found) }
{
    let mut closed = String::from_str(alloc, text)?;
    closed.push_str(")")?;
    match read_column(alloc, closed.as_str()) {
        Ok(Some((column, rest))) => {
            if rest == ")" {
                Ok(Some(column))
            } else {
                Ok(None)
            }
        }
        Ok(None) => Ok(None),
        Err(error) => Err(error),
    }
}
