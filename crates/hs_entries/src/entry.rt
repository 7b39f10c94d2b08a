// What an entry's bytes are.
ghost use Rattle.std.specs.Prelude.{◌≡◌, ◌&&◌, false, if◌then◌else◌, length, nat_lt, IfOk, IfSome, IfNone};
ghost use Rattle.std.specs.List.{list_all};
ghost use Rattle.hs_entries.specs.Entry.{item_of, is_too_long as too_long, has_session, IsSplit, is_session as session, is_name_byte as name_byte, is_letter as letter};

use crate::item::{Item, MOST_BYTES, MOST_NAME_BYTES};
use hs_values::{Chars, Name};
use std::alloc::{AllocError, Global};

/// The item of a whole entry, up to its `;`.
pub fn read_entry(alloc: Global, number: u64, bytes: &[u8]) -> Result<Item, AllocError>
    ensures { IfOk result (λ item. item ≡ item_of number bytes.now) }
{
    if is_too_long(bytes) {
        return Ok(Item::TooLong { number });
    }
    let Ok(entry) = std::str::from_utf8(bytes) else {
        return Ok(Item::Bad { number });
    };
    let Some((session, text)) = split_session(entry) else {
        return Ok(Item::Bad { number });
    };
    Ok(Item::Entry {
        number,
        session: Name::from_text(alloc, session)?,
        text: Chars::from_text(alloc, text)?,
        at: session.len() as u32 + 1,
    })
}

// More bytes than an entry has at most.
fn is_too_long(bytes: &[u8]) -> bool
    ensures { result ≡ too_long bytes.now }
{
    bytes.len() > MOST_BYTES
}

// The session's name and the statement, if the entry has such a name and directly a colon.
fn split_session(entry: &str) -> Option<(&str, &str)>
    ensures none { IfNone result (has_session entry.now ≡ false) }
    ensures some { IfSome result (λ parts. IsSplit entry.now parts.0.now parts.1.now) }
{
    match entry.split_once(':') {
        Some((session, text)) if is_session(session.as_bytes()) => Some((session, text)),
        _ => None,
    }
}

/// The item of an entry that the input ends before its `;`.
pub fn cut_entry(number: u64, is_too_long: bool) -> Item
    ensures { result ≡ (if is_too_long then Item.TooLong number else Item.Bad number) }
{
    if is_too_long {
        Item::TooLong { number }
    } else {
        Item::Bad { number }
    }
}

// A letter, and then up to 31 letters, digits and `_`.
fn is_session(name: &[u8]) -> bool
    ensures { result ≡ session name.now }
{
    match name {
        [first, rest @ ..] => is_letter(*first) && is_short_name(rest),
        [] => false,
    }
}

// At most 31 letters, digits and `_`.
fn is_short_name(bytes: &[u8]) -> bool
    ensures { result ≡ (nat_lt (length bytes.now) MOST_NAME_BYTES && list_all name_byte bytes.now) }
{
    bytes.len() < MOST_NAME_BYTES && are_name_bytes(bytes)
}

fn are_name_bytes(bytes: &[u8]) -> bool
    ensures { result ≡ list_all name_byte bytes.now }
{
    bytes.iter().all(|b| is_name_byte(*b))
}

fn is_letter(byte: u8) -> bool
    ensures { result ≡ letter byte }
{
    byte.is_ascii_alphabetic()
}

fn is_name_byte(byte: u8) -> bool
    ensures { result ≡ name_byte byte }
{
    byte.is_ascii_alphanumeric() || byte == b'_'
}
