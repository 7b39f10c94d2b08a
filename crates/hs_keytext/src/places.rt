// Columns by their names, as they are read.
ghost use Rattle.std.specs.Prelude.{◌≡◌, ◌∷◌, [], IfOk};
ghost use Rattle.hs_valuetext.specs.Finding.{Finds, Knows};
ghost use Rattle.hs_valuetext.specs.Values as values;
ghost use Rattle.hs_columntext.specs.Lists.{AreSome, Completes};
ghost use Rattle.hs_keytext.specs.Places.{place_of, place_text, IsPlace, IsPlaceAt, IsPlaceOf, AreColumnsAt};

use crate::distinct::are_distinct;
use hs_nametext::read_name;
use hs_plan::Column;
use hs_valuetext::behind;
use sqlite_items::Items;
use std::alloc::{AllocError, Global};

/// Whether a comma or a closing parenthesis is at the front.
fn begins_end(text: &str) -> bool
    ensures { result ≡ values.begins_end text.now }
{
    match text.as_bytes() {
        [byte, ..] => *byte == b',' || *byte == b')',
        [] => false,
    }
}

fn position_of(columns: &[Column], name: &str) -> Option<usize>
    ensures { result ≡ place_of columns.now name.now }
{
    columns
        .iter()
        .position(|column| name == column.name.as_str())
}

/// The place of the first column of this name.
fn place_of(columns: &[Column], name: &str) -> Option<u32>
    ensures { Knows (λ p. p) (IsPlaceOf columns.now name.now) result }
{
    match position_of(columns, name) {
        Some(at) => match u32::try_from(at) {
            Ok(place) => Some(place),
            Err(_) => None,
        },
        None => None,
    }
}

/// The column with whose name another text begins, where a comma or a closing parenthesis is behind it, by its place in the
/// table, and what is behind the name. None exactly where there is none. A name means the first column that has it. There is
/// never more than one. An `Err` is want of memory.
pub fn read_place<'a>(
    alloc: Global,
    text: &'a str,
    columns: &[Column],
) -> Result<Option<(u32, &'a str)>, AllocError>
    ensures { IfOk result (λ found. Finds (λ p. p) (IsPlaceAt columns.now text.now) found) }
{
    match read_name(alloc, text) {
        Ok(Some((name, rest))) => {
            if !begins_end(rest) {
                return Ok(None);
            }
            match place_of(columns, name.as_str()) {
                Some(place) => Ok(Some((place, rest))),
                None => Ok(None),
            }
        }
        Ok(None) => Ok(None),
        Err(error) => Err(error),
    }
}

/// The list of one place.
fn one_place(alloc: Global, place: u32) -> Result<Items<u32>, AllocError>
    ensures { IfOk result (λ places. places ≡ place ∷ []) }
{
    let mut places = Items::new(alloc);
    places.push(place)?;
    Ok(places)
}

/// The places that were read before, and those of the names at the front, each behind a comma, up to a closing parenthesis;
/// and what is behind that.
fn read_others<'a>(
    alloc: Global,
    mut places: Items<u32>,
    text: &'a str,
    columns: &[Column],
) -> Result<Option<(Items<u32>, &'a str)>, AllocError>
    ensures { IfOk result (λ found. Finds (λ p. p) (Completes (IsPlace columns.now) (place_text columns.now) places text.now) found) }
{
    let mut rest = text;
    while let Some(inner) = behind(rest, ",") {
        match read_place(alloc, inner, columns) {
            Ok(Some((place, more))) => {
                places.push(place)?;
                rest = more;
            }
            Ok(None) => return Ok(None),
            Err(error) => return Err(error),
        }
    }
    match behind(rest, ")") {
        Some(behind) => Ok(Some((places, behind))),
        None => Ok(None),
    }
}

/// The first place and those behind it, up to a closing parenthesis, and what is behind that.
fn read_some<'a>(
    alloc: Global,
    text: &'a str,
    columns: &[Column],
) -> Result<Option<(Items<u32>, &'a str)>, AllocError>
    ensures { IfOk result (λ found. Finds (λ p. p) (AreSome (IsPlace columns.now) (place_text columns.now) text.now) found) }
{
    match read_place(alloc, text, columns) {
        Ok(Some((place, rest))) => {
            let places = one_place(alloc, place)?;
            read_others(alloc, places, rest, columns)
        }
        Ok(None) => Ok(None),
        Err(error) => Err(error),
    }
}

/// The columns with whose names, with commas between and a closing parenthesis behind them, another text begins, by their
/// places in the table, and what is behind the parenthesis. None exactly where there are none: where it is written otherwise,
/// no name stands there, a name is no column's, or a column stands twice. A name means the first column that has it. There is
/// never more than one list. An `Err` is want of memory.
pub fn read_places<'a>(
    alloc: Global,
    text: &'a str,
    columns: &[Column],
) -> Result<Option<(Items<u32>, &'a str)>, AllocError>
    ensures { IfOk result (λ found. Finds (λ p. p) (AreColumnsAt columns.now text.now) found) }
{
    match read_some(alloc, text, columns) {
        Ok(Some((places, rest))) => {
            if are_distinct(places.as_slice()) {
                Ok(Some((places, rest)))
            } else {
                Ok(None)
            }
        }
        Ok(None) => Ok(None),
        Err(error) => Err(error),
    }
}
