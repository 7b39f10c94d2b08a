// What the body of a query gives.
ghost use Rattle.std.specs.Prelude.{◌≡◌};
ghost use Rattle.hs_expression.specs.Surroundings.{rows_around};
ghost use Rattle.hs_places.specs.Lines.{line_around};
ghost use Rattle.hs_places.specs.Places.{around_of, places_over};

use crate::places::{Over, Places};
use hs_expression::Around;
use hs_values::RowList;

/// The rows that the body of a query gives, and what they were made of, over which keys of ORDER BY are evaluated.
/// None where no such keys are evaluated.
#[derive(Drop)]
pub struct Lines {
    pub rows: RowList,
    pub over: Option<Over>,
}

impl Lines {
    /// The rows around the keys of a line, counted from 0. Takes no memory.
    pub fn around<'a>(&'a self, outer: &'a Around<'a>, at: usize) -> Around<'a>
        ensures { rows_around result ≡ line_around (rows_around outer.now) self.now.over at }
    {
        match &self.over {
            None => *outer,
            Some(over) => around_over(over, outer, at),
        }
    }
}

fn around_over<'a>(over: &'a Over, outer: &'a Around<'a>, at: usize) -> Around<'a>
    ensures { rows_around result ≡ around_of (places_over (rows_around outer.now) over.now) at }
{
    let places = Places {
        outer,
        each: over.each(),
    };
    places.around(at)
}
