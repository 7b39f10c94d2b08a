// What stands behind a column's type, and behind its name.
ghost use Rattle.std.specs.Prelude.{◌≡◌, IfOk};
ghost use Rattle.hs_valuetext.specs.Finding.{Finds};
ghost use Rattle.hs_valuetext.specs.Values.{begins_end};
ghost use Rattle.hs_columntext.specs.Columns.{IsDefault, default_text, IsTyped, typed_text};
ghost use Rattle.hs_columntext.specs.Lists.{IsItemAt};

use crate::types::read_type;
use hs_values::{SqlType, Value};
use hs_valuetext::{behind, read_value};
use std::alloc::{AllocError, Global};

/// Whether a comma or a closing parenthesis is at the front.
pub(crate) fn begins_end(text: &str) -> bool
    ensures { result ≡ begins_end text.now }
{
    match text.as_bytes() {
        [byte, ..] => *byte == b',' || *byte == b')',
        [] => false,
    }
}

/// A value of the type behind DEFAULT, or nothing, and what is behind it.
fn read_default<'a>(
    alloc: Global,
    text: &'a str,
    sql_type: &SqlType,
) -> Result<Option<(Option<Value>, &'a str)>, AllocError>
    ensures { IfOk result (λ found. Finds (λ d. d) (IsItemAt (IsDefault sql_type.now) default_text text.now) found) }
{
    match behind(text, " DEFAULT ") {
        Some(written) => match read_value(alloc, written, sql_type) {
            Ok(Some((value, rest))) => Ok(Some((Some(value), rest))),
            Ok(None) => Ok(None),
            Err(error) => Err(error),
        },
        None => {
            if begins_end(text) {
                Ok(Some((None, text)))
            } else {
                Ok(None)
            }
        }
    }
}

/// A type with its DEFAULT or none, behind a space, and what is behind it.
pub(crate) fn read_typed<'a>(
    alloc: Global,
    text: &'a str,
) -> Result<Option<((SqlType, Option<Value>), &'a str)>, AllocError>
    ensures { IfOk result (λ found. Finds (λ p. p) (IsItemAt IsTyped typed_text text.now) found) }
{
    let Some(written) = behind(text, " ") else {
        return Ok(None);
    };
    let Some((sql_type, defaulted)) = read_type(written) else {
        return Ok(None);
    };
    match read_default(alloc, defaulted, &sql_type) {
        Ok(Some((default, rest))) => Ok(Some(((sql_type, default), rest))),
        Ok(None) => Ok(None),
        Err(error) => Err(error),
    }
}
