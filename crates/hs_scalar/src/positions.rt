// Texts by the positions of their characters.
ghost use Rattle.std.specs.Prelude.{◌≡◌, pos, ◌+ℤ◌, ◌-ℤ◌, length, take, drop};
ghost use Rattle.std.specs.Str.{chars};
ghost use Rattle.hs_scalar.specs.Positions.{positions_through, substring_of};

use crate::ends::split_first;

/// The number of characters of a text: CHAR_LENGTH of SQL. A character is a Unicode scalar value.
pub fn char_length(text: &str) -> i64
    ensures { result ≡ pos (length (chars text.now)) }
{
    text.chars().count() as i64
}

/// The characters of a text from the position `from` on, where the first character has position 1:
/// SUBSTRING of SQL. With a count they are those at the positions `from` to `from + count - 1`, and
/// none for a count below 1. Positions below 1 and behind the text's end have no character, and
/// count all the same. Borrows from the text and takes no memory.
pub fn substring(text: &str, from: i64, count: Option<i64>) -> &str
    ensures { result.now ≡ substring_of text.now from count }
{
    let before = positions_before(from);
    let rest = without_first(text, before);
    match count {
        None => rest,
        Some(count) => {
            let through = positions_up_to_last(from, count);
            first_of(rest, through.saturating_sub(before))
        }
    }
}

/// How many positions, from 1 on, are below `first`.
fn positions_before(first: i64) -> u64
    ensures { result ≡ positions_through (first -ℤ pos 1) }
{
    if first > 1 { (first - 1) as u64 } else { 0 }
}

/// How many positions, from 1 on, are at most the last of the `count` positions from `first` on.
fn positions_up_to_last(first: i64, count: i64) -> u64
    ensures { result ≡ positions_through (first +ℤ count -ℤ pos 1) }
{
    let last = first as i128 + count as i128 - 1;
    if last > 0 { last as u64 } else { 0 }
}

/// A text without its first `count` characters.
fn without_first(text: &str, count: u64) -> &str
    ensures { chars result.now ≡ drop count (chars text.now) }
{
    let mut rest = text;
    let mut left = count;
    while left > 0 {
        match split_first(rest) {
            Some((_, after)) => rest = after,
            None => return rest,
        }
        left -= 1;
    }
    rest
}

/// The first `count` characters of a text.
fn first_of(text: &str, count: u64) -> &str
    ensures { chars result.now ≡ take count (chars text.now) }
{
    let rest = without_first(text, count);
    let (front, _) = text.split_at(text.len() - rest.len());
    front
}
