// Texts without a character at their ends.
ghost use Rattle.std.specs.Prelude.{◌≡◌};
ghost use Rattle.std.specs.Str.{chars};
ghost use Rattle.hs_scalar.specs.Trimming.{without_leading, without_trailing, trim_of};

use crate::ends::{split_first, split_last};

/// The side of a text that TRIM looks at.
#[derive(Clone, Copy, Debug, PartialEq, Eq)]
pub enum Side {
    /// The start.
    Leading,
    /// The end.
    Trailing,
    /// The start and the end.
    Both,
}

/// The text without every repetition of the character at that side: TRIM of SQL. Borrows from the
/// text and takes no memory.
#[tactic(auto, using(crate::proofs::CharLemmas::spelled))]
pub fn trim(text: &str, side: Side, c: char) -> &str
    ensures { result.now ≡ trim_of text.now side c }
{
    match side {
        Side::Leading => trim_leading(text, c),
        Side::Trailing => trim_trailing(text, c),
        Side::Both => trim_trailing(trim_leading(text, c), c),
    }
}

fn trim_leading(text: &str, c: char) -> &str
    ensures { chars result.now ≡ without_leading c (chars text.now) }
{
    let mut rest = text;
    loop {
        match split_first(rest) {
            Some((first, after)) if first == c => rest = after,
            _ => return rest,
        }
    }
}

fn trim_trailing(text: &str, c: char) -> &str
    ensures { chars result.now ≡ without_trailing c (chars text.now) }
{
    let mut rest = text;
    loop {
        match split_last(rest) {
            Some((before, last)) if last == c => rest = before,
            _ => return rest,
        }
    }
}
