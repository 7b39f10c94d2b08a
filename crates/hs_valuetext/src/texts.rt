// Texts as values.
ghost use Rattle.std.specs.Prelude.{◌≡◌, ◌++◌, OnOk, IfOk, string_bytes};
ghost use Rattle.hs_valuetext.specs.Finding.{Finds, Knows};
ghost use Rattle.hs_valuetext.specs.Texts.{chars_text, IsWrittenText, IsPlainText, IsEscapedForm, IsEscapedText};

use crate::escapes::{escape, has_control, unescape};
use crate::finding::behind;
use crate::quotes::{push_quoted, read_quoted};
use hs_values::Chars;
use std::alloc::{AllocError, Global};

/// Adds a text as a value is written: between quotes, behind `U&` and with escapes exactly where there is a control
/// character in it. After an `Err`, which is want of memory, a part of it may be there.
pub(crate) fn push_chars(alloc: Global, text: &str, out: &mut Chars) -> Result<(), AllocError>
    ensures { OnOk result (out.new ≡ out.old ++ chars_text text.now) }
{
    if has_control(text.as_bytes()) {
        let escaped = escape(alloc, text)?;
        out.push_text("U&")?;
        push_quoted('\'', escaped.as_str(), out)
    } else {
        push_quoted('\'', text, out)
    }
}

/// A text that is written without escapes.
fn read_plain<'a>(alloc: Global, text: &'a str) -> Result<Option<(String, &'a str)>, AllocError>
    ensures { IfOk result (λ found. Finds string_bytes (IsPlainText text.now) found) }
{
    match read_quoted(alloc, '\'', text) {
        Ok(Some((content, rest))) => {
            if has_control(content.as_bytes()) {
                Ok(None)
            } else {
                Ok(Some((content, rest)))
            }
        }
        Ok(None) => Ok(None),
        Err(error) => Err(error),
    }
}

/// The text of which this is the escaped form.
fn unescaped(alloc: Global, text: &str) -> Result<Option<String>, AllocError>
    ensures { IfOk result (λ found. Knows string_bytes (IsEscapedForm text.now) found) }
{
    let Some(bytes) = unescape(alloc, text.as_bytes())? else {
        return Ok(None);
    };
    if !has_control(&bytes) {
        return Ok(None);
    }
    match String::from_utf8(bytes) {
        Ok(content) => Ok(Some(content)),
        Err(_) => Ok(None),
    }
}

/// A text that is written with escapes, behind its `U&`.
fn read_escaped<'a>(alloc: Global, text: &'a str) -> Result<Option<(String, &'a str)>, AllocError>
    ensures { IfOk result (λ found. Finds string_bytes (IsEscapedText text.now) found) }
{
    match read_quoted(alloc, '\'', text) {
        Ok(Some((content, rest))) => match unescaped(alloc, content.as_str())? {
            Some(content) => Ok(Some((content, rest))),
            None => Ok(None),
        },
        Ok(None) => Ok(None),
        Err(error) => Err(error),
    }
}

/// A text as a value is written, and what is behind it.
pub(crate) fn read_chars<'a>(
    alloc: Global,
    text: &'a str,
) -> Result<Option<(String, &'a str)>, AllocError>
    ensures { IfOk result (λ found. Finds string_bytes (IsWrittenText text.now) found) }
{
    match behind(text, "U&") {
        Some(quoted) => read_escaped(alloc, quoted),
        None => read_plain(alloc, text),
    }
}
