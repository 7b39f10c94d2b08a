// Keys: the values that a row has in some columns.
ghost use Rattle.std.specs.Prelude.{◌≡◌, IfOk};
ghost use Rattle.hs_index.specs.Keys as spec;

use hs_base::NoMemory;
use hs_values::{Row, Value};
use std::alloc::Global;

/// The key that a row has in these columns, which are places in it from 0: its values there, in the order of the
/// columns, and NULL where it has no such column. An `Err` is want of memory.
pub fn key_in(alloc: Global, columns: &[u32], row: &[Value]) -> Result<Row, NoMemory>
    ensures { IfOk result (λ key. key ≡ spec.key_in columns.now row.now) }
{
    let mut values = Vec::with_capacity(alloc, columns.len())?;
    for column in columns {
        values.push(copied(row, *column)?)?;
    }
    Ok(Row::from_vec(values))
}

// The value in a column, and NULL where there is no such column.
fn copied(row: &[Value], column: u32) -> Result<Value, NoMemory>
    ensures { IfOk result (λ value. value ≡ spec.value_at row.now column) }
{
    match row.get(column as usize) {
        Some(value) => Ok(value.copy()?),
        None => Ok(Value::Null),
    }
}

/// Whether one of a key's values is NULL. Such a key equals none, so an index has no row under it.
pub fn has_null(key: &[Value]) -> bool
    ensures { result ≡ spec.has_null key.now }
{
    key.iter().any(is_null)
}

/// Whether the key that a row has in these columns has a NULL. Takes no memory.
pub fn has_gap(columns: &[u32], row: &[Value]) -> bool
    ensures { result ≡ spec.has_null (spec.key_in columns.now row.now) }
{
    for column in columns {
        if is_gap(row, *column) {
            return true;
        }
    }
    false
}

// Whether the value in a column is NULL, as it is where there is no such column.
fn is_gap(row: &[Value], column: u32) -> bool
    ensures { result ≡ spec.is_null (spec.value_at row.now column) }
{
    match row.get(column as usize) {
        Some(value) => is_null(value),
        None => true,
    }
}

fn is_null(value: &Value) -> bool
    ensures { result ≡ spec.is_null value.now }
{
    matches!(value, Value::Null)
}
