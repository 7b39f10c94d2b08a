// Whether a text is like a pattern.
ghost use Rattle.std.specs.Prelude.{◌≡◌, ◌≤◌, length};
ghost use Rattle.std.specs.Str.{chars};
ghost use Rattle.hs_scalar.specs.Like.{items_of, matches, some_end_passes, like_of};
ghost use Rattle.hs_scalar.specs.Attempt.{AttemptTells};

use crate::ends::split_first;
use crate::pattern::{Item, fits, split_item};

/// How far a pattern was matched from the start of a text on, up to its first `%`.
#[derive(Clone, Copy)]
pub(crate) enum Attempt<'a> {
    /// To the ends of both.
    Whole,
    /// Not so far. A later start in the text may do better.
    Fails,
    /// To the end of the text, with characters of the pattern left. No later start does better.
    TooShort,
    /// To a `%`: what is left of the text, and of the pattern behind the `%`.
    Run(&'a str, &'a str),
}

/// Whether the text is like the pattern: LIKE of SQL. In the pattern `%` stands for any run of
/// characters and `_` for one character, and a character behind the escape, if there is one, for
/// itself, as does an escape at the end. The escape may be `%` or `_`, which then acts as escape. A text is
/// like a pattern exactly where it is pieces in a row, one for each item, which fits it, as
/// [`a_text_is_like_its_pieces`](crate::laws::a_text_is_like_its_pieces) says.
/// Takes no memory, and time in the product of the two lengths at most.
pub fn like(text: &str, pattern: &str, escape: Option<char>) -> bool
    ensures { result ≡ like_of text.now pattern.now escape }
{
    match try_start(text, pattern, escape) {
        Attempt::Whole => true,
        Attempt::Fails | Attempt::TooShort => false,
        Attempt::Run(rest, later) => some_end_is_like(rest, later, escape),
    }
}

/// Whether some end of the text, the whole among them, is like the pattern. Where a start leads to
/// a `%`, no later start needs to be tried: what that one leaves is an end of what this one leaves.
fn some_end_is_like(text: &str, pattern: &str, escape: Option<char>) -> bool
    ensures { result ≡ some_end_passes (matches (items_of escape (chars pattern.now))) (chars text.now) }
{
    let (mut start, mut items) = (text, pattern);
    while !items.is_empty() {
        start = from_first_fit(start, items, escape);
        match try_start(start, items, escape) {
            Attempt::Whole => return true,
            Attempt::TooShort => return false,
            Attempt::Run(rest, later) => {
                start = rest;
                items = later;
            }
            Attempt::Fails => match split_first(start) {
                Some((_, rest)) => start = rest,
                None => return false,
            },
        }
    }
    true
}

/// What is left of a text from the first character on that the pattern may begin with.
fn from_first_fit<'a>(text: &'a str, pattern: &str, escape: Option<char>) -> &'a str
    ensures ends { some_end_passes (matches (items_of escape (chars pattern.now))) (chars result.now) ≡ some_end_passes (matches (items_of escape (chars pattern.now))) (chars text.now) }
    ensures shorter { length result.now ≤ length text.now }
{
    let item = match split_item(pattern, escape) {
        Some((item, _)) => item,
        None => return text,
    };
    if let Item::AnyRun = item {
        return text;
    }
    let mut rest = text;
    while let Some((c, after)) = split_first(rest) {
        if fits(item, c) {
            return rest;
        }
        rest = after;
    }
    rest
}

/// Matches the items before the first `%` with the text's first characters.
fn try_start<'a>(text: &'a str, pattern: &'a str, escape: Option<char>) -> Attempt<'a>
    ensures { AttemptTells escape pattern.now text.now result }
{
    let (mut rest, mut items) = (text, pattern);
    while let Some((item, later)) = split_item(items, escape) {
        if let Item::AnyRun = item {
            return Attempt::Run(rest, later);
        }
        match split_first(rest) {
            None => return Attempt::TooShort,
            Some((c, after)) => {
                if !fits(item, c) {
                    return Attempt::Fails;
                }
                rest = after;
                items = later;
            }
        }
    }
    if rest.is_empty() {
        Attempt::Whole
    } else {
        Attempt::Fails
    }
}
