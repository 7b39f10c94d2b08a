// The items of a LIKE pattern.
ghost use Rattle.std.specs.Prelude.{◌≡◌, ◌∷◌, [], ◌<◌, length, MatchOption, IfSome};
ghost use Rattle.std.specs.Str.{chars};
ghost use Rattle.hs_scalar.specs.Like.{item_of, items_of, stands_for};

use crate::ends::split_first;

/// What a part of a pattern stands for.
#[derive(Clone, Copy, Debug)]
pub(crate) enum Item {
    /// Any run of characters, the empty one among them: `%`.
    AnyRun,
    /// Any one character: `_`.
    AnyCharacter,
    /// This character.
    This(char),
}

/// The first item of a pattern, and what follows it. A character behind the escape stands for
/// itself, and so does an escape at the end.
pub(crate) fn split_item(pattern: &str, escape: Option<char>) -> Option<(Item, &str)>
    ensures parts { MatchOption result (items_of escape (chars pattern.now) ≡ []) (λ parts. items_of escape (chars pattern.now) ≡ parts.0 ∷ items_of escape (chars parts.1.now)) }
    ensures shorter { IfSome result (λ parts. length parts.1.now < length pattern.now) }
{
    let (first, rest) = split_first(pattern)?;
    if escape != Some(first) {
        return Some((plain_item(first), rest));
    }
    match split_first(rest) {
        Some((escaped, after)) => Some((Item::This(escaped), after)),
        None => Some((Item::This(first), rest)),
    }
}

/// What a character that is not behind an escape stands for.
fn plain_item(c: char) -> Item
    ensures { result ≡ item_of c }
{
    match c {
        '%' => Item::AnyRun,
        '_' => Item::AnyCharacter,
        _ => Item::This(c),
    }
}

/// Whether the item is one character and this one fits it.
pub(crate) fn fits(item: Item, c: char) -> bool
    ensures { result ≡ stands_for item c }
{
    match item {
        Item::AnyRun => false,
        Item::AnyCharacter => true,
        Item::This(wanted) => c == wanted,
    }
}
