// The defaults of columns.
ghost use Rattle.std.specs.Prelude.{◌≡◌, Some, IfOk};
ghost use Rattle.hs_tentative.specs.NewRows as spec;

use hs_plan::Column;
use hs_values::{Row, Value};
use std::alloc::{AllocError, Global};

/// The default of the column at a place, from 0: NULL where it has none, and where there is no such column. An `Err` is
/// want of memory.
pub fn default_of(columns: &[Column], place: u32) -> Result<Value, AllocError>
    ensures { IfOk result (λ value. value ≡ spec.default_of columns.now place) }
{
    match columns.get(place as usize) {
        Some(column) => own_default(column),
        None => Ok(Value::Null),
    }
}

/// The defaults of these columns, each in its place. An `Err` is want of memory.
pub fn defaults(alloc: Global, columns: &[Column]) -> Result<Row, AllocError>
    ensures { IfOk result (λ row. row ≡ spec.defaults columns.now) }
{
    let mut row = Vec::with_capacity(alloc, columns.len())?;
    for column in columns {
        row.push(own_default(column)?)?;
    }
    Ok(Row::from_vec(row))
}

fn own_default(column: &Column) -> Result<Value, AllocError>
    ensures { IfOk result (λ value. value ≡ spec.default_in (Some column.now)) }
{
    match &column.default {
        Some(value) => value.copy(),
        None => Ok(Value::Null),
    }
}
