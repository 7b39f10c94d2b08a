// Where expressions are evaluated, one place after another.
ghost use Rattle.std.specs.Prelude.{◌≡◌, length, map, None, Some};
ghost use Rattle.hs_answer.specs.Places.{over_group, over_row};
ghost use Rattle.hs_answer.specs.Selects.{having_true};
ghost use Rattle.hs_expression.specs.Surroundings.{Rows as RowLists, Valued, rows_around};
ghost use Rattle.hs_rel.specs.Outcome.{stop_of};
ghost use Rattle.hs_places.specs.Places.{AnswersAs, around_of, group_of, places_at, places_over, places_seen};

use crate::groups::KeptGroups;
use crate::outcomes::true_rows;
use hs_expression::{Around, RowRef};
use hs_rel::EvalStop;
use hs_values::{EvalFault, Row, RowList, Value};

/// The rows of a part of a query, or their groups.
#[derive(Drop)]
pub enum Over {
    Rows(RowList),
    Groups(KeptGroups),
}

/// Rows, or groups of them, where they lie.
#[derive(Clone, Copy)]
pub enum Each<'a> {
    Rows(&'a [Row]),
    Groups(&'a KeptGroups),
}

/// Where expressions are evaluated: over each row, or over each group, with the rows of the SELECTs around.
#[derive(Clone, Copy)]
pub struct Places<'a> {
    pub outer: &'a Around<'a>,
    pub each: Each<'a>,
}

impl Over {
    /// The same where they lie. Takes no memory.
    pub fn each(&self) -> Each<'_>
        ensures { (outer : RowLists) → places_at outer result ≡ places_over outer self.now }
    {
        match self {
            Over::Rows(rows) => Each::Rows(rows.as_slice()),
            Over::Groups(groups) => Each::Groups(groups),
        }
    }

    /// Those for which a condition is TRUE, or the least of its faults. Else an `Err` is want of memory.
    #[tactic(auto, using(crate::proofs::Keeping::having_kept))]
    pub fn keep(self, outcomes: &[Result<Value, EvalFault>]) -> Result<Over, EvalStop>
        ensures kept { (outer : RowLists) (condition : Valued) → outcomes.now ≡ map condition (places_over outer self) → AnswersAs (places_over outer) (having_true (Some condition) (places_over outer self)) result }
        ensures never_stops { stop_of result ≡ None }
    {
        match self {
            Over::Rows(rows) => Ok(Over::Rows(true_rows(rows, outcomes)?)),
            Over::Groups(groups) => Ok(Over::Groups(groups.keep(outcomes)?)),
        }
    }
}

impl<'a> Places<'a> {
    /// Each of these rows. Takes no memory.
    pub fn of_rows(outer: &'a Around<'a>, rows: &'a [Row]) -> Places<'a>
        ensures { places_seen result ≡ map (over_row (rows_around outer.now)) rows.now }
    {
        Places {
            outer,
            each: Each::Rows(rows),
        }
    }

    /// Each of these rows, or of these groups. Takes no memory.
    pub fn of(outer: &'a Around<'a>, over: &'a Over) -> Places<'a>
        ensures { places_seen result ≡ places_over (rows_around outer.now) over.now }
    {
        let each = over.each();
        Places { outer, each }
    }

    /// How many places there are. Takes no memory.
    pub fn len(&self) -> usize
        ensures { result ≡ length (places_seen self.now) }
    {
        match self.each {
            Each::Rows(rows) => rows.len(),
            Each::Groups(groups) => groups.len(),
        }
    }

    /// The rows of the group at a place, counted from 0; none where no rows are grouped. Takes no memory.
    #[tactic(auto, using(crate::proofs::AtPlaces::no_group_over, crate::proofs::AtPlaces::group_over))]
    pub fn group(&self, at: usize) -> &'a [Row]
        ensures { result.now ≡ group_of (places_seen self.now) at }
    {
        match self.each {
            Each::Rows(_) => &[],
            Each::Groups(groups) => groups.group(at),
        }
    }

    /// The rows around a place, counted from 0, and none where there is no such place. Takes no memory.
    pub fn around(&self, at: usize) -> Around<'a>
        ensures { rows_around result ≡ around_of (places_seen self.now) at }
    {
        match self.each {
            Each::Rows(rows) => around_row(rows, self.outer, at),
            Each::Groups(groups) => around_group(groups, self.outer, at),
        }
    }
}

#[tactic(auto, using(crate::proofs::AtPlaces::row_around, crate::proofs::AtPlaces::no_row_around))]
fn around_row<'a>(rows: &'a [Row], outer: &'a Around<'a>, at: usize) -> Around<'a>
    ensures { rows_around result ≡ around_of (map (over_row (rows_around outer.now)) rows.now) at }
{
    match rows.get(at) {
        Some(row) => Around::Row(RowRef::Held(row), outer),
        None => Around::Nothing,
    }
}

#[tactic(auto, using(crate::proofs::AtPlaces::group_around, crate::proofs::AtPlaces::no_group_around))]
fn around_group<'a>(groups: &'a KeptGroups, outer: &'a Around<'a>, at: usize) -> Around<'a>
    ensures { rows_around result ≡ around_of (map (over_group (rows_around outer.now)) groups.now) at }
{
    if at < groups.len() {
        Around::Row(RowRef::Held(groups.first(at)), outer)
    } else {
        Around::Nothing
    }
}
