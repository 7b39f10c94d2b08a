// Whether columns differ.
ghost use Rattle.std.specs.Prelude.{◌≡◌, nat_eq};
ghost use Rattle.std.specs.List.{list_any};
ghost use Rattle.hs_keytext.specs.Places.{are_distinct};

fn is_among(places: &[u32], place: u32) -> bool
    ensures { result ≡ list_any (nat_eq place) places.now }
{
    places.iter().any(|other| place == *other)
}

/// Whether no place stands twice in a list.
pub(crate) fn are_distinct(places: &[u32]) -> bool
    ensures { result ≡ are_distinct places.now }
{
    let [first, rest @ ..] = places else {
        return true;
    };
    !is_among(rest, *first) && are_distinct(rest)
}
