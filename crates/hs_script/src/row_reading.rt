// The group of a MEMORY table as it is read.
ghost use Rattle.std.specs.Prelude.{◌≡◌, ◌↔◌, IsTrue, ℕ, false, IfOk};
ghost use Rattle.hs_parttext.specs.Lines.{has_feed};
ghost use Rattle.hs_valuetext.specs.Finding.{Finds, Knows};
ghost use Rattle.hs_committext.specs.Lines.{AreLinesOf, IsFirstOf};
ghost use Rattle.hs_script.specs.Rows.{seen, Rise, IsStoredLine, IsRowsText};

use crate::lines::next_line;
use crate::shelf::Shelf;
use crate::stored_row::StoredRow;
use hs_rowtext::read_kept_line;
use std::alloc::{AllocError, Global};

/// The row whose line this is.
fn read_line(alloc: Global, line: &str, shelf: &Shelf<'_>) -> Result<Option<StoredRow>, AllocError>
    ensures { IfOk result (λ found. Knows (λ r. r) (IsStoredLine (seen shelf.now) line.now) found) }
{
    match read_kept_line(alloc, line, shelf.written, shelf.columns) {
        Ok(Some((row, values))) => Ok(Some(StoredRow {
            table: shelf.table,
            row,
            values,
        })),
        Ok(None) => Ok(None),
        Err(error) => Err(error),
    }
}

/// The row whose line, with a line feed behind it, is at the front of the text, and what is behind that.
fn read_row<'a>(
    alloc: Global,
    text: &'a str,
    shelf: &Shelf<'_>,
) -> Result<Option<(StoredRow, &'a str)>, AllocError>
    requires { has_feed shelf.now.written.now ≡ false }
    ensures { IfOk result (λ found. Finds (λ r. r) (IsFirstOf (IsStoredLine (seen shelf.now)) text.now) found) }
{
    let Some((line, rest)) = next_line(text) else {
        return Ok(None);
    };
    match read_line(alloc, line, shelf) {
        Ok(Some(row)) => Ok(Some((row, rest))),
        Ok(None) => Ok(None),
        Err(error) => Err(error),
    }
}

/// The rows whose lines, each with a line feed behind it, are all of the text, whatever the order of their numbers is.
fn read_lines(
    alloc: Global,
    text: &str,
    shelf: &Shelf<'_>,
) -> Result<Option<Vec<StoredRow>>, AllocError>
    requires { has_feed shelf.now.written.now ≡ false }
    ensures { IfOk result (λ found. Knows (λ v. v.items) (AreLinesOf (IsStoredLine (seen shelf.now)) text.now) found) }
{
    let mut rows = Vec::new(alloc);
    let mut rest = text;
    while !rest.is_empty() {
        match read_row(alloc, rest, shelf) {
            Ok(Some((row, more))) => {
                rows.push(row)?;
                rest = more;
            }
            Ok(None) => return Ok(None),
            Err(error) => return Err(error),
        }
    }
    Ok(Some(rows))
}

/// Whether the numbers of rows rise from above this one, up to the most.
fn rise(rows: &[StoredRow], most: u64) -> bool
    ensures { IsTrue result ↔ Rise 0 most rows.now }
{
    let mut before = 0;
    for stored in rows {
        let number = stored.row.0;
        if number <= before || number > most {
            return false;
        }
        before = number;
    }
    true
}

/// The rows of a MEMORY table whose lines, each with a line feed behind it, are all of the text. None exactly where there are
/// none: where a line is written otherwise, its values aren't those of the columns or take more than 4,000 bytes, or its number
/// isn't above that of the line before, or is 0 or above the most. There is never more than one list, and it may be empty. No line
/// feed is in the table's name as it is written. Takes time for the length of the text. An `Err` is want of memory.
pub fn read_rows(
    alloc: Global,
    text: &str,
    shelf: &Shelf<'_>,
    most: u64,
) -> Result<Option<Vec<StoredRow>>, AllocError>
    requires { has_feed shelf.now.written.now ≡ false }
    ensures { IfOk result (λ found. Knows (λ v. v.items) (IsRowsText (seen shelf.now) most text.now) found) }
{
    match read_lines(alloc, text, shelf)? {
        Some(rows) => {
            if rise(&rows, most) {
                Ok(Some(rows))
            } else {
                Ok(None)
            }
        }
        None => Ok(None),
    }
}
