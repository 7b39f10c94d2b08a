// Lines, one after another.
ghost use Rattle.std.specs.Prelude.{◌≡◌, ◌∷◌, ◌++◌, false, MatchOption};
ghost use Rattle.hs_parttext.specs.Lines.{has_feed};

use hs_parttext::first_line;
use hs_valuetext::behind;

/// What is before the first line feed and what is behind it. None where there is none.
pub(crate) fn next_line(text: &str) -> Option<(&str, &str)>
    ensures { MatchOption result (has_feed text.now ≡ false) (λ p. (has_feed p.0.now ≡ false) × (text.now ≡ p.0.now ++ 10 ∷ p.1.now)) }
{
    let (line, rest) = first_line(text);
    match behind(rest, "\n") {
        Some(more) => Some((line, more)),
        None => None,
    }
}
