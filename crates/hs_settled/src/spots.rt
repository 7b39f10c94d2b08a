// Where the expressions of a query are evaluated, one place after another.
ghost use Rattle.std.specs.Prelude.{◌≡◌, ◌<◌, length};
ghost use Rattle.hs_expression.specs.Surroundings.{rows_around};
ghost use Rattle.hs_places.specs.Places.{around_of, group_of};
ghost use Rattle.hs_settled.specs.Spots.{spots_seen};

use hs_expression::Around;
use hs_places::{Lines, Places};
use hs_values::Row;

/// Where expressions are evaluated: over rows or groups, or for the keys of ORDER BY over what each line was made of.
#[derive(Clone, Copy)]
pub enum Spots<'a> {
    At(Places<'a>),
    Keys(&'a Around<'a>, &'a Lines),
}

impl<'a> Spots<'a> {
    /// How many places there are. Takes no memory.
    #[tactic(auto, using(crate::proofs::AtSpots::many_lines))]
    pub fn len(&self) -> usize
        ensures { result ≡ length (spots_seen self.now) }
    {
        match self {
            Spots::At(places) => places.len(),
            Spots::Keys(_, lines) => lines.rows.len(),
        }
    }

    /// The rows around a place, counted from 0. Takes no memory.
    #[tactic(auto, using(crate::proofs::AtSpots::around_key))]
    pub fn around(&self, at: usize) -> Around<'a>
        requires { at < length (spots_seen self.now) }
        ensures { rows_around result ≡ around_of (spots_seen self.now) at }
    {
        match self {
            Spots::At(places) => places.around(at),
            Spots::Keys(outer, lines) => lines.around(outer, at),
        }
    }

    /// The rows of the group at a place, counted from 0; none where no rows are grouped. Takes no memory.
    #[tactic(auto, using(crate::proofs::AtSpots::no_group_at_key))]
    pub fn group(&self, at: usize) -> &'a [Row]
        ensures { result.now ≡ group_of (spots_seen self.now) at }
    {
        match self {
            Spots::At(places) => places.group(at),
            Spots::Keys(..) => &[],
        }
    }
}
