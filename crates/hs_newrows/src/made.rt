// New rows.
ghost use Rattle.std.specs.Prelude.{◌≡◌, map, IfOk};
ghost use Rattle.hs_values.specs.Outcome.{Gives};
ghost use Rattle.hs_tentative.specs.NewRows as spec;

use crate::default_values::defaults;
use crate::evaluates::Evaluates;
use crate::storing::all_stored;
use crate::tuples::{assigned_values, values_for};
use hs_acting::with_columns;
use hs_plan::{Assignment, Column, NewValue};
use hs_values::{EvalFault, Row, Value};
use sqlite_items::Items;
use std::alloc::{AllocError, Global};

/// A row of VALUES, its values for the columns at these places: columns that are left out have their defaults. A fault is
/// that of the first value, from the left, that has one or can't be stored. `NoMemory` is want of memory.
pub fn inserted<E: Evaluates>(
    alloc: Global,
    evaluator: &E,
    columns: &[Column],
    places: &[u32],
    tuple: &[NewValue],
) -> Result<Row, EvalFault>
    ensures { Gives result (spec.inserted (E.evaluate evaluator.now) columns.now places.now tuple.now) }
{
    let none = Row::new(alloc);
    let values = values_for(alloc, evaluator, columns, &none, places, tuple)?;
    Ok(with_columns(defaults(alloc, columns)?, places, values))
}

/// A row that a query gave, its values for the columns at these places: columns that are left out have their defaults. A
/// fault is that of the first value that can't be stored. `NoMemory` is want of memory.
pub fn taken_in(
    alloc: Global,
    columns: &[Column],
    places: &[u32],
    row: &[Value],
) -> Result<Row, EvalFault>
    ensures { Gives result (spec.taken_in columns.now places.now row.now) }
{
    let values = all_stored(alloc, columns, places, row)?;
    Ok(with_columns(defaults(alloc, columns)?, places, values))
}

/// A row with what SET assigns: each value is evaluated over the row as it was, and stored before the next one is
/// evaluated. A fault is that of the first value. `NoMemory` is want of memory.
pub fn updated<E: Evaluates>(
    alloc: Global,
    evaluator: &E,
    columns: &[Column],
    assignments: &[Assignment],
    row: &Row,
) -> Result<Row, EvalFault>
    ensures { Gives result (spec.updated (E.evaluate evaluator.now) columns.now assignments.now row.now) }
{
    let values = assigned_values(alloc, evaluator, columns, row, assignments)?;
    let places = places_of(alloc, assignments)?;
    Ok(with_columns(row.copy()?, places.as_slice(), values))
}

fn places_of(alloc: Global, assignments: &[Assignment]) -> Result<Items<u32>, AllocError>
    ensures { IfOk result (λ places. places ≡ map (λ a. a.column) assignments.now) }
{
    let mut places = Vec::with_capacity(alloc, assignments.len())?;
    for assignment in assignments {
        places.push(assignment.column)?;
    }
    Ok(Items::from_vec(places))
}
