// What expressions give at several places.
ghost use Rattle.std.specs.Prelude.{◌≡◌, ◌<◌, length, map, IfOk};
ghost use Rattle.hs_answer.specs.Answer.{value_in};
ghost use Rattle.hs_answer.specs.Places.{value_over, values_at};
ghost use Rattle.hs_copied.specs.Copies.{maps_of};
ghost use Rattle.hs_expression.specs.Surroundings.{rows_around, surroundings_of};
ghost use Rattle.hs_settled.specs.Spots.{spots_seen};
ghost use Rattle.hs_eval.specs.Parts.{outcomes_at, place_at};

use crate::expressions::value;
use crate::outcomes::{plain_column, row_spots, settled};
use hs_copied::TableCopies;
use hs_expression::{Around, Place, is_plain};
use hs_plan::Expr;
use hs_settled::{Spots, add_column, no_columns};
use hs_values::{EvalFault, Row, Value};
use std::alloc::AllocError;

/// What an expression gives at each place. An `Err` is want of memory.
#[cycle(evaluation)]
pub(crate) fn column(
    e: &Expr,
    copies: &TableCopies,
    spots: &Spots<'_>,
) -> Result<Vec<Result<Value, EvalFault>>, AllocError>
    ensures { IfOk result (λ column. column.items ≡ map (value_in (maps_of copies.now) e.now) (spots_seen spots.now)) }
{
    if is_plain(e) {
        return plain_column(copies.allocator(), e, spots);
    }
    let mut column = Vec::with_capacity(copies.allocator(), spots.len())?;
    for at in 0..spots.len() {
        column.push(outcome_at(e, copies, spots, at)?)?;
    }
    Ok(column)
}

/// What an expression gives at a place, counted from 0. An `Err` is want of memory.
#[cycle(evaluation)]
fn outcome_at(
    e: &Expr,
    copies: &TableCopies,
    spots: &Spots<'_>,
    at: usize,
) -> Result<Result<Value, EvalFault>, AllocError>
    requires { at < length (spots_seen spots.now) }
    ensures { IfOk result (λ outcome. outcome ≡ value_in (maps_of copies.now) e.now (place_at (spots_seen spots.now) at)) }
{
    let around = spots.around(at);
    let place = Place {
        alloc: copies.allocator(),
        around: &around,
        group: spots.group(at),
    };
    settled(value(e, copies, &place))
}

/// What an expression gives over each row. An `Err` is want of memory.
#[cycle(evaluation)]
pub(crate) fn column_over(
    e: &Expr,
    copies: &TableCopies,
    outer: &Around<'_>,
    rows: &[Row],
) -> Result<Vec<Result<Value, EvalFault>>, AllocError>
    ensures { IfOk result (λ column. column.items ≡ map (value_over (value_in (maps_of copies.now) e.now) (rows_around outer.now)) rows.now) }
{
    let spots = row_spots(&*outer, rows);
    column(e, copies, &spots)
}

/// What several expressions give at each place. An `Err` is want of memory.
#[cycle(evaluation)]
pub(crate) fn row_columns(
    items: &[Expr],
    copies: &TableCopies,
    spots: &Spots<'_>,
) -> Result<Vec<Result<Row, EvalFault>>, AllocError>
    ensures { IfOk result (λ rows. rows.items ≡ map (values_at (map (value_in (maps_of copies.now)) items.now)) (spots_seen spots.now)) }
{
    let alloc = copies.allocator();
    let mut rows = no_columns(alloc, spots.len())?;
    for e in items {
        rows = add_column(alloc, rows, column(e, copies, spots)?)?;
    }
    Ok(rows)
}

/// What each expression gives at one place. An `Err` is want of memory.
#[cycle(evaluation)]
pub(crate) fn outcomes(
    all: &[Expr],
    copies: &TableCopies,
    place: &Place<'_>,
) -> Result<Vec<Result<Value, EvalFault>>, AllocError>
    ensures { IfOk result (λ outcomes. outcomes.items ≡ outcomes_at (maps_of copies.now) (surroundings_of place.now) all.now) }
{
    let mut outcomes = Vec::with_capacity(copies.allocator(), all.len())?;
    for e in all {
        outcomes.push(settled(value(e, copies, place))?)?;
    }
    Ok(outcomes)
}
