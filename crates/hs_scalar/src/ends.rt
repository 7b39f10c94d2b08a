// The first and the last character of a text.
ghost use Rattle.std.specs.Prelude.{◌≡◌, ◌∷◌, ◌++◌, [], ◌+◌, ◌<◌, length, MatchOption, IfSome};
ghost use Rattle.std.specs.Str.{chars};

/// The first character of a text, and what follows it.
pub(crate) fn split_first(text: &str) -> Option<(char, &str)>
    ensures parts { MatchOption result (chars text.now ≡ []) (λ parts. chars text.now ≡ parts.0 ∷ chars parts.1.now) }
    ensures shorter { IfSome result (λ parts. length parts.1.now < length text.now) }
{
    let mut rest = text.chars();
    match rest.next() {
        Some(first) => Some((first, rest.as_str())),
        None => None,
    }
}

/// The last character of a text, and what stands before it.
pub(crate) fn split_last(text: &str) -> Option<(&str, char)>
    ensures parts { MatchOption result (chars text.now ≡ []) (λ parts. chars text.now ≡ chars parts.0.now ++ parts.1 ∷ []) }
    ensures shorter { IfSome result (λ parts. length parts.0.now < length text.now) }
{
    let mut rest = text.chars();
    match rest.next_back() {
        Some(last) => Some((rest.as_str(), last)),
        None => None,
    }
}
