// Values of VALUES and of SET.
ghost use Rattle.std.specs.Prelude.{◌≡◌, map};
ghost use Rattle.hs_values.specs.Outcome.{Gives};
ghost use Rattle.hs_tentative.specs.NewRows as spec;

use crate::default_values::default_of;
use crate::evaluates::Evaluates;
use crate::storing::stored;
use hs_plan::{Assignment, Column, NewValue};
use hs_values::{EvalFault, Row, Value};
use std::alloc::Global;

/// A value of VALUES or of SET for the column at a place, from 0: its default, or what the expression gives over a row,
/// as the column stores it. `NoMemory` is want of memory.
pub fn value_for<E: Evaluates>(
    evaluator: &E,
    columns: &[Column],
    row: &Row,
    place: u32,
    value: &NewValue,
) -> Result<Value, EvalFault>
    ensures { Gives result (spec.value_for (E.evaluate evaluator.now) columns.now row.now place value.now) }
{
    match value {
        NewValue::Default => Ok(default_of(columns, place)?),
        NewValue::Value(e) => stored(columns, place, evaluator.value(e, row)?),
    }
}

/// The values of a row of VALUES for the columns at these places: each is evaluated and stored before the next one, and
/// the first fault is that of all. `NoMemory` is want of memory.
#[tactic(auto, using(crate::proofs::Each::begun, crate::proofs::Each::more, crate::proofs::Each::failed))]
pub fn values_for<E: Evaluates>(
    alloc: Global,
    evaluator: &E,
    columns: &[Column],
    row: &Row,
    places: &[u32],
    tuple: &[NewValue],
) -> Result<Row, EvalFault>
    ensures { Gives result (spec.values_for (E.evaluate evaluator.now) columns.now row.now places.now tuple.now) }
{
    let mut made = Vec::with_capacity(alloc, places.len())?;
    let mut given = tuple.iter();
    for place in places {
        match given.next() {
            Some(value) => made.push(value_for(evaluator, columns, row, *place, value)?)?,
            None => return Ok(Row::from_vec(made)),
        }
    }
    Ok(Row::from_vec(made))
}

/// The values that SET assigns, each evaluated over the row as it was. `NoMemory` is want of memory.
#[tactic(auto, using(crate::proofs::Each::begun, crate::proofs::Each::more, crate::proofs::Each::failed))]
pub fn assigned_values<E: Evaluates>(
    alloc: Global,
    evaluator: &E,
    columns: &[Column],
    row: &Row,
    assignments: &[Assignment],
) -> Result<Row, EvalFault>
    ensures { Gives result (spec.values_for (E.evaluate evaluator.now) columns.now row.now (map (λ a. a.column) assignments.now) (map (λ a. a.value) assignments.now)) }
{
    let mut made = Vec::with_capacity(alloc, assignments.len())?;
    for assignment in assignments {
        let kept = value_for(
            evaluator,
            columns,
            row,
            assignment.column,
            &assignment.value,
        )?;
        made.push(kept)?;
    }
    Ok(Row::from_vec(made))
}
