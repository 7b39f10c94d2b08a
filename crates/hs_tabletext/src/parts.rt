// Rules of one kind as they are read.
ghost use Rattle.std.specs.Prelude.{IfOk};
ghost use Rattle.hs_valuetext.specs.Finding.{Knows};
ghost use Rattle.hs_tabletext.specs.Rules.{IsNotNullText, IsKeyText, IsCheckText};

use crate::conditions::Conditions;
use hs_keytext::{read_place, read_places};
use hs_plan::{Column, Expr};
use hs_valuetext::behind;
use sqlite_items::Items;
use std::alloc::{AllocError, Global};

/// The column of NOT NULL, which is all of the text.
pub(crate) fn read_not_null(
    alloc: Global,
    text: &str,
    columns: &[Column],
) -> Result<Option<u32>, AllocError>
    ensures { IfOk result (λ found. Knows (λ p. p) (IsNotNullText columns.now text.now) found) }
{
    let Some(inner) = behind(text, "NOT NULL(") else {
        return Ok(None);
    };
    match read_place(alloc, inner, columns) {
        Ok(Some((place, rest))) => {
            if rest == ")" {
                Ok(Some(place))
            } else {
                Ok(None)
            }
        }
        Ok(None) => Ok(None),
        Err(error) => Err(error),
    }
}

/// The columns of a key behind this front, which are all of the text.
pub(crate) fn read_key(
    alloc: Global,
    text: &str,
    front: &str,
    columns: &[Column],
) -> Result<Option<Items<u32>>, AllocError>
    ensures { IfOk result (λ found. Knows (λ p. p) (IsKeyText front.now columns.now text.now) found) }
{
    let Some(inner) = behind(text, front) else {
        return Ok(None);
    };
    match read_places(alloc, inner, columns) {
        Ok(Some((places, rest))) => {
            if rest.is_empty() {
                Ok(Some(places))
            } else {
                Ok(None)
            }
        }
        Ok(None) => Ok(None),
        Err(error) => Err(error),
    }
}

/// The condition of CHECK, which is all of the text.
pub(crate) fn read_check<C: Conditions>(
    alloc: Global,
    text: &str,
    columns: &[Column],
    conditions: &C,
) -> Result<Option<Expr>, AllocError>
    ensures { IfOk result (λ found. Knows (λ e. e) (IsCheckText (C.wording conditions.now) columns.now text.now) found) }
{
    let Some(inner) = behind(text, "CHECK(") else {
        return Ok(None);
    };
    match inner.strip_suffix(')') {
        Some(condition) => conditions.read(alloc, condition, columns),
        None => Ok(None),
    }
}
