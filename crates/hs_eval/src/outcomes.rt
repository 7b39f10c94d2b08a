// Outcomes of evaluation, and of expressions without subqueries at several places.
ghost use Rattle.std.specs.Prelude.{◌≡◌, ◌<◌, Result, length, map, IfOk};
ghost use Rattle.hs_values.specs.declared.fault.EvalFault.{EvalFault as Fault};
ghost use Rattle.hs_values.specs.declared.value.Value.{Value as SqlValue};
ghost use Rattle.hs_values.specs.Outcome.{Gives};
ghost use Rattle.hs_answer.specs.Places.{over_row};
ghost use Rattle.hs_expression.specs.Expression.{value_of};
ghost use Rattle.hs_expression.specs.Surroundings.{outside, rows_around};
ghost use Rattle.hs_places.specs.Places.{places_over};
ghost use Rattle.hs_settled.specs.Spots.{spots_seen};
ghost use Rattle.hs_eval.specs.Parts.{aggregate_by, place_at};

use hs_ast::Aggregate;
use hs_expression::{Around, Place, aggregate_value};
use hs_places::{Over, Places, all_values};
use hs_plan::Expr;
use hs_settled::Spots;
use hs_valued::value_at;
use hs_values::{EvalFault, Row, Value};
use std::alloc::{AllocError, Global};

/// The value or the fault that an evaluation gave. An `Err` is want of memory.
pub(crate) fn settled(
    given: Result<Value, EvalFault>,
) -> Result<Result<Value, EvalFault>, AllocError>
    ensures { (means : Result SqlValue Fault) → Gives given means → IfOk result (λ outcome. outcome ≡ means) }
{
    match given {
        Ok(value) => Ok(Ok(value)),
        Err(EvalFault::NoMemory) => Err(AllocError),
        Err(fault) => Ok(Err(fault)),
    }
}

/// What an expression without subqueries gives at a place, counted from 0. An `Err` is want of memory.
fn plain_outcome(
    alloc: Global,
    e: &Expr,
    spots: &Spots<'_>,
    at: usize,
) -> Result<Result<Value, EvalFault>, AllocError>
    requires { at < length (spots_seen spots.now) }
    ensures { IfOk result (λ outcome. outcome ≡ value_of e.now (place_at (spots_seen spots.now) at)) }
{
    let around = spots.around(at);
    let place = Place {
        alloc,
        around: &around,
        group: spots.group(at),
    };
    settled(value_at(e, &place))
}

/// What an expression without subqueries gives at each place. An `Err` is want of memory.
#[tactic(auto, using(crate::proofs::AtEach::place_next))]
pub(crate) fn plain_column(
    alloc: Global,
    e: &Expr,
    spots: &Spots<'_>,
) -> Result<Vec<Result<Value, EvalFault>>, AllocError>
    ensures { IfOk result (λ column. column.items ≡ map (value_of e.now) (spots_seen spots.now)) }
{
    let mut column = Vec::with_capacity(alloc, spots.len())?;
    for at in 0..spots.len() {
        column.push(plain_outcome(alloc, e, spots, at)?)?;
    }
    Ok(column)
}

/// Each of these rows. Takes no memory.
pub(crate) fn row_spots<'a>(outer: &'a Around<'a>, rows: &'a [Row]) -> Spots<'a>
    ensures { spots_seen result ≡ map (over_row (rows_around outer.now)) rows.now }
{
    Spots::At(Places::of_rows(outer, rows))
}

/// Each of these rows or groups. Takes no memory.
pub(crate) fn over_spots<'a>(outer: &'a Around<'a>, over: &'a Over) -> Spots<'a>
    ensures { spots_seen result ≡ places_over (rows_around outer.now) over.now }
{
    Spots::At(Places::of(outer, over))
}

/// Each row of the group at a place. Takes no memory.
pub(crate) fn group_spots<'a>(place: &Place<'a>) -> Spots<'a>
    ensures { spots_seen result ≡ map (over_row (outside (rows_around place.now.around.now))) place.now.group.now }
{
    row_spots(place.around.outside(), place.group)
}

/// An aggregate of what its operand gives at the rows of a group. An `Err` is the least fault of the operand, then that of the
/// aggregate, or want of memory.
pub(crate) fn aggregated(
    alloc: Global,
    function: Aggregate,
    distinct: bool,
    outcomes: Vec<Result<Value, EvalFault>>,
) -> Result<Value, EvalFault>
    ensures { Gives result (aggregate_by function distinct outcomes.items) }
{
    let values = all_values(alloc, outcomes)?;
    aggregate_value(alloc, function, distinct, values.into_vec())
}
