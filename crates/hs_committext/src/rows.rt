// Changes of rows as they are read, line after line.
ghost use Rattle.std.specs.Prelude.{◌≡◌, ◌∷◌, ◌++◌, false, IfOk, MatchOption};
ghost use Rattle.hs_parttext.specs.Lines.{has_feed};
ghost use Rattle.hs_rowtext.specs.Lines.{IsRowLine};
ghost use Rattle.hs_valuetext.specs.Finding.{Finds, Knows};
ghost use Rattle.hs_committext.specs.Lines.{AreLinesOf, IsFirstOf};

use hs_parttext::first_line;
use hs_plan::{Change, Changes};
use hs_rowtext::read_row_line;
use hs_schema::Catalog;
use hs_valuetext::behind;
use std::alloc::{AllocError, Global};

/// What is before the first line feed and what is behind it. None where there is none.
fn next_line(text: &str) -> Option<(&str, &str)>
    ensures { MatchOption result (has_feed text.now ≡ false) (λ p. (has_feed p.0.now ≡ false) × (text.now ≡ p.0.now ++ 10 ∷ p.1.now)) }
{
    let (line, rest) = first_line(text);
    match behind(rest, "\n") {
        Some(more) => Some((line, more)),
        None => None,
    }
}

/// The change of a row whose line, with a line feed behind it, is at the front of the text, and what is behind that.
fn read_row<'a>(
    alloc: Global,
    text: &'a str,
    catalog: &Catalog,
) -> Result<Option<(Change, &'a str)>, AllocError>
    ensures { IfOk result (λ found. Finds (λ c. c) (IsFirstOf (IsRowLine catalog.now) text.now) found) }
{
    let Some((line, rest)) = next_line(text) else {
        return Ok(None);
    };
    match read_row_line(alloc, line, catalog) {
        Ok(Some(change)) => Ok(Some((change, rest))),
        Ok(None) => Ok(None),
        Err(error) => Err(error),
    }
}

/// The changes of rows whose lines, each with a line feed behind it, are all of the text. None exactly where there are none;
/// the list may be empty. There is never more than one. An `Err` is want of memory.
pub(crate) fn read_rows(
    alloc: Global,
    text: &str,
    catalog: &Catalog,
) -> Result<Option<Changes>, AllocError>
    ensures { IfOk result (λ found. Knows (λ c. c) (AreLinesOf (IsRowLine catalog.now) text.now) found) }
{
    let mut changes = Vec::new(alloc);
    let mut rest = text;
    while !rest.is_empty() {
        match read_row(alloc, rest, catalog) {
            Ok(Some((change, more))) => {
                changes.push(change)?;
                rest = more;
            }
            Ok(None) => return Ok(None),
            Err(error) => return Err(error),
        }
    }
    Ok(Some(Changes::from_vec(changes)))
}
