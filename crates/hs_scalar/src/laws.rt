//! The law of LIKE, on a function that does nothing. Proofs of other crates cite it from
//! `proofs/LikeLaws.antt`.
ghost use Rattle.std.specs.Prelude.{◌≡◌, ◌↔◌, ℕ, List, Option, true};
ghost use Rattle.std.specs.Str.{chars};
ghost use Rattle.hs_scalar.specs.Like.{items_of, like_of, IsLike};

/// A text is like a pattern exactly where its characters are pieces in a row, one for each item of the
/// pattern, which fits it: `%` fits any piece, `_` one of one character, and any other item the piece of
/// its own character alone.
pub fn a_text_is_like_its_pieces()
    ensures { (text pattern : List ℕ) (escape : Option ℕ) → (like_of text pattern escape ≡ true) ↔ IsLike (items_of escape (chars pattern)) (chars text) }
{}
