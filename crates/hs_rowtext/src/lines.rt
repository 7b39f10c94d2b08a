// Lines of rows as they are read.
ghost use Rattle.std.specs.Prelude.{IfOk};
ghost use Rattle.hs_valuetext.specs.Finding.{Finds, Knows};
ghost use Rattle.hs_rowtext.specs.Lines.{IsVerbAt, IsRowLine, IsKeptLine};

use crate::parts::{read_behind, read_numbered_part};
use crate::tables::read_table;
use crate::verb::Verb;
use hs_base::RowNo;
use hs_plan::{Change, Column};
use hs_schema::Catalog;
use hs_values::Row;
use hs_valuetext::behind;
use std::alloc::{AllocError, Global};

/// The verb at the front of a line, and what is behind it.
fn read_verb(line: &str) -> Option<(Verb, &str)>
    ensures { Finds (λ v. v) (IsVerbAt line.now) result }
{
    if let Some(rest) = behind(line, "INSERT INTO ") {
        return Some((Verb::Insert, rest));
    }
    if let Some(rest) = behind(line, "UPDATE ") {
        return Some((Verb::Update, rest));
    }
    match behind(line, "DELETE FROM ") {
        Some(rest) => Some((Verb::Delete, rest)),
        None => None,
    }
}

/// The change of a row whose line this is, the table being one of the catalogue's. None exactly where there is none: where
/// the line isn't canonical, the catalogue has no such table, the values aren't those of its columns, their encoding has more
/// than 4,000 bytes, or the row's number is 0 or has more than 64 bits. There is never more than one. The line is without its
/// end. An `Err` is want of memory.
pub fn read_row_line(
    alloc: Global,
    line: &str,
    catalog: &Catalog,
) -> Result<Option<Change>, AllocError>
    ensures { IfOk result (λ found. Knows (λ c. c) (IsRowLine catalog.now line.now) found) }
{
    let Some((verb, named)) = read_verb(line) else {
        return Ok(None);
    };
    match read_table(alloc, named, catalog) {
        Ok(Some((table, rest))) => read_behind(alloc, verb, table, rest),
        Ok(None) => Ok(None),
        Err(error) => Err(error),
    }
}

/// The row that is kept by this line, with its number, the name of its table being given as it is written. None exactly
/// where there is none: where the line isn't canonical, the values aren't those of the columns, their encoding has more than
/// 4,000 bytes, or the row's number is 0 or has more than 64 bits. There is never more than one. The line is without its end.
/// An `Err` is want of memory.
pub fn read_kept_line(
    alloc: Global,
    line: &str,
    written: &str,
    columns: &[Column],
) -> Result<Option<(RowNo, Row)>, AllocError>
    ensures { IfOk result (λ found. Knows (λ p. p) (IsKeptLine written.now columns.now line.now) found) }
{
    let Some(named) = behind(line, "INSERT INTO ") else {
        return Ok(None);
    };
    match behind(named, written) {
        Some(rest) => read_numbered_part(alloc, rest, columns),
        None => Ok(None),
    }
}
