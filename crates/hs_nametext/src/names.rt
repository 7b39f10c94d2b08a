// Names as they are written.
ghost use Rattle.std.specs.Prelude.{◌≡◌, ◌++◌, ◌&&◌, not, OnOk, IfOk, string_bytes, take, drop};
ghost use Rattle.std.specs.Cow.{cow_str_bytes};
ghost use Rattle.std.specs.List.{prefix_len};
ghost use Rattle.hs_valuetext.specs.Finding.{Finds};
ghost use Rattle.hs_valuetext.specs.Quotes.{begins_with};
ghost use Rattle.hs_nametext.specs.Names as spec;

use crate::bytes::{goes_on, is_name, is_word, word_len};
use hs_base::NoMemory;
use hs_syntax::is_reserved;
use hs_values::Chars;
use hs_valuetext::{push_quoted, read_quoted};
use std::alloc::{AllocError, Global};
use std::borrow::CowStr;

/// Whether a name stands as it is: a capital letter and then capital letters, digits and `_`, and no reserved word.
pub fn is_plain(name: &str) -> bool
    ensures { result ≡ spec.is_plain name.now }
{
    is_word(name.as_bytes()) && !is_reserved(name.as_bytes())
}

/// Adds a name's text: as it is, where it is a capital letter and then capital letters, digits and `_` and isn't reserved,
/// and else in double quotes, with each one in it twice. An `Err` is want of memory, and then a part of the text may be
/// there.
pub fn print_name(name: &str, out: &mut Chars) -> Result<(), NoMemory>
    ensures { OnOk result (out.new ≡ out.old ++ spec.name_text name.now) }
{
    if is_plain(name) {
        Ok(out.push_text(name)?)
    } else {
        Ok(push_quoted('"', name, out)?)
    }
}

/// The capital letters, digits and `_` at the front, and the rest.
fn word(text: &str) -> (&str, &str)
    ensures front { result.0.now ≡ take (prefix_len spec.is_in_word text.now) text.now }
    ensures rest { result.1.now ≡ drop (prefix_len spec.is_in_word text.now) text.now }
{
    text.split_at(word_len(text.as_bytes()))
}

/// Whether a text is a name, and what is behind it is none of its own.
fn is_whole_name(name: &str, rest: &str) -> bool
    ensures { result ≡ (spec.is_name name.now && not (spec.goes_on rest.now)) }
{
    is_name(name.as_bytes()) && !goes_on(rest.as_bytes())
}

/// A name that stands as it is, and what is behind it.
fn read_plain(text: &str) -> Option<(&str, &str)>
    ensures { Finds (λ name. name.now) (spec.IsPlainAt text.now) result }
{
    let (name, rest) = word(text);
    if is_plain(name) && is_whole_name(name, rest) {
        Some((name, rest))
    } else {
        None
    }
}

/// A name in double quotes, and what is behind it.
fn read_between<'a>(alloc: Global, text: &'a str) -> Result<Option<(String, &'a str)>, AllocError>
    ensures { IfOk result (λ found. Finds string_bytes (spec.IsQuotedAt text.now) found) }
{
    match read_quoted(alloc, '"', text) {
        Ok(Some((name, rest))) => {
            if !is_plain(name.as_str()) && is_whole_name(name.as_str(), rest) {
                Ok(Some((name, rest)))
            } else {
                Ok(None)
            }
        }
        Ok(None) => Ok(None),
        Err(error) => Err(error),
    }
}

/// Whether a double quote is at the front.
fn begins_quote(text: &str) -> bool
    ensures { result ≡ begins_with 34 text.now }
{
    match text.as_bytes() {
        [byte, ..] => *byte == b'"',
        [] => false,
    }
}

/// The name with whose text another text begins, where that doesn't go on as a name, and what is behind it. None exactly
/// where there is none: where it is written otherwise, or is no name. There is never more than one. An `Err` is want of
/// memory, which a name in double quotes alone takes.
pub fn read_name<'a>(
    alloc: Global,
    text: &'a str,
) -> Result<Option<(CowStr<'a>, &'a str)>, AllocError>
    ensures { IfOk result (λ found. Finds cow_str_bytes (spec.IsNameAt text.now) found) }
{
    if begins_quote(text) {
        match read_between(alloc, text) {
            Ok(Some((name, rest))) => Ok(Some((CowStr::Owned(name), rest))),
            Ok(None) => Ok(None),
            Err(error) => Err(error),
        }
    } else {
        match read_plain(text) {
            Some((name, rest)) => Ok(Some((CowStr::Borrowed(name), rest))),
            None => Ok(None),
        }
    }
}
