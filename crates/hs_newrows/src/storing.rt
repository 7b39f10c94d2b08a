// Values as columns store them.
ghost use Rattle.std.specs.Prelude.{◌≡◌};
ghost use Rattle.hs_values.specs.Outcome.{Gives};
ghost use Rattle.hs_tentative.specs.NewRows as spec;

use hs_plan::Column;
use hs_values::{EvalFault, Row, Value, assign};
use std::alloc::Global;

/// A value as the column at a place, from 0, stores it: the value itself where there is no such column. A fault is that
/// of a value that the column can't store. Takes no memory.
pub fn stored(columns: &[Column], place: u32, value: Value) -> Result<Value, EvalFault>
    ensures { result ≡ spec.stored columns.now place value }
{
    match columns.get(place as usize) {
        Some(column) => assign(value, &column.data_type),
        None => Ok(value),
    }
}

/// Values as the columns at these places store them, one for each, or the fault of the first one that can't be stored.
/// `NoMemory` is want of memory.
#[tactic(auto, using(crate::proofs::Each::stored_begun, crate::proofs::Each::stored_more, crate::proofs::Each::stored_failed))]
pub fn all_stored(
    alloc: Global,
    columns: &[Column],
    places: &[u32],
    values: &[Value],
) -> Result<Row, EvalFault>
    ensures { Gives result (spec.all_stored columns.now places.now values.now) }
{
    let mut row = Vec::with_capacity(alloc, places.len())?;
    let mut given = values.iter();
    for place in places {
        match given.next() {
            Some(value) => row.push(stored(columns, *place, value.copy()?)?)?,
            None => return Ok(Row::from_vec(row)),
        }
    }
    Ok(Row::from_vec(row))
}
