// The values that a child row gets.
ghost use Rattle.std.specs.Prelude.{◌≡◌, map, IfOk};
ghost use Rattle.hs_values.specs.Outcome.{Gives};
ghost use Rattle.hs_index.specs.Keys.{value_at, key_in};
ghost use Rattle.hs_actions.specs.Acting as spec;

use hs_actions::Reference;
use hs_plan::ReferentialAction;
use hs_values::{EvalFault, Row, SqlType, Value, assign};
use std::alloc::{AllocError, Global};

/// The values that a child row gets in the foreign key's columns where an action is done, the parent's row being this
/// now: NULL each for SET NULL, the defaults for SET DEFAULT, and else the parent's key as the columns store it. A fault
/// is that of the first value that its column can't store; `NoMemory` is want of memory.
pub fn new_key(
    alloc: Global,
    key: &Reference,
    new: &[Value],
    action: ReferentialAction,
) -> Result<Row, EvalFault>
    ensures { Gives result (spec.new_key key.now new.now action) }
{
    match action {
        ReferentialAction::SetNull => Ok(nulls(alloc, key.columns.as_slice())?),
        ReferentialAction::SetDefault => Ok(key.defaults.copy()?),
        ReferentialAction::Cascade | ReferentialAction::NoAction | ReferentialAction::Restrict =>
            assigned(
                alloc,
                key.types.as_slice(),
                key.parent_columns.as_slice(),
                new,
            ),
    }
}

fn nulls(alloc: Global, columns: &[u32]) -> Result<Row, AllocError>
    ensures { IfOk result (λ made. made ≡ map (λ c. Value.Null) columns.now) }
{
    let mut made = Vec::with_capacity(alloc, columns.len())?;
    for _column in 0..columns.len() {
        made.push(Value::Null)?;
    }
    Ok(Row::from_vec(made))
}

#[tactic(auto, using(crate::proofs::Storing::begun, crate::proofs::Storing::stored, crate::proofs::Storing::failed))]
/// The values that a row has in these columns, as columns of these types store them, or the fault of the first one that
/// can't be stored. `NoMemory` is want of memory.
pub fn assigned(
    alloc: Global,
    types: &[SqlType],
    columns: &[u32],
    row: &[Value],
) -> Result<Row, EvalFault>
    ensures { Gives result (spec.assigned types.now (key_in columns.now row.now)) }
{
    let mut made = Vec::with_capacity(alloc, columns.len())?;
    let mut places = columns.iter();
    for sql_type in types {
        match places.next() {
            Some(column) => made.push(assign(copied(row, *column)?, sql_type)?)?,
            None => return Ok(Row::from_vec(made)),
        }
    }
    Ok(Row::from_vec(made))
}

// The value in a column, and NULL where there is no such column.
fn copied(row: &[Value], column: u32) -> Result<Value, AllocError>
    ensures { IfOk result (λ value. value ≡ value_at row.now column) }
{
    match row.get(column as usize) {
        Some(value) => value.copy(),
        None => Ok(Value::Null),
    }
}
