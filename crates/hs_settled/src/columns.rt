// Rows that grow by a column.
ghost use Rattle.std.specs.Prelude.{◌≡◌, fold, IfOk};
ghost use Rattle.hs_values.specs.Outcome.{Gives};
ghost use Rattle.hs_expression.specs.Outcomes.{all_or_least};
ghost use Rattle.hs_rel.specs.Outcome.{Answers, IsNoVerdict};
ghost use Rattle.hs_stages.specs.Gathering.{nothing, with_outcome};
ghost use Rattle.hs_settled.specs.Columns as spec;

use crate::fault::fault_of;
use hs_expression::RowRef;
use hs_rel::EvalStop;
use hs_stages::Gathered;
use hs_values::{EvalFault, Row, RowList, Value};
use std::alloc::{AllocError, Global};
use std::mem;

/// So many rows without columns. An `Err` is want of memory.
#[tactic(auto, using(crate::proofs::Growing::one_row_more))]
pub fn no_columns(alloc: Global, many: usize) -> Result<Vec<Result<Row, EvalFault>>, AllocError>
    ensures { IfOk result (λ rows. rows.items ≡ spec.no_columns many) }
{
    let mut rows = Vec::with_capacity(alloc, many)?;
    for _row in 0..many {
        rows.push(Ok(Row::new(alloc)))?;
    }
    Ok(rows)
}

/// A row with one value more, or its first fault.
fn with_value(
    row: Result<Row, EvalFault>,
    outcome: Result<Value, EvalFault>,
) -> Result<Result<Row, EvalFault>, AllocError>
    ensures { IfOk result (λ both. both ≡ spec.with_value row outcome) }
{
    match row {
        Ok(mut values) => match outcome {
            Ok(value) => {
                values.push(value)?;
                Ok(Ok(values))
            }
            Err(fault) => Ok(Err(fault)),
        },
        Err(fault) => Ok(Err(fault)),
    }
}

/// Each row with its value of a column behind it, or its first fault; one for which there is no value stays. An `Err` is want
/// of memory.
pub fn add_column(
    alloc: Global,
    rows: Vec<Result<Row, EvalFault>>,
    column: Vec<Result<Value, EvalFault>>,
) -> Result<Vec<Result<Row, EvalFault>>, AllocError>
    ensures { IfOk result (λ all. all.items ≡ spec.with_column rows.items column.items) }
{
    let mut left = rows;
    let mut values = column;
    let mut all = Vec::with_capacity(alloc, left.len())?;
    for (i, slot) in left.iter_mut().enumerate() {
        let row = mem::replace(slot, Ok(Row::new(alloc)));
        if i < values.len() {
            let value = mem::replace(&mut values[i], Ok(Value::Null));
            all.push(with_value(row, value)?)?;
        } else {
            all.push(row)?;
        }
    }
    Ok(all)
}

/// The values of the column at a place, and NULL where a row has none. An `Err` is want of memory.
pub fn output_column(
    alloc: Global,
    rows: &RowList,
    at: u32,
) -> Result<Vec<Result<Value, EvalFault>>, AllocError>
    ensures { IfOk result (λ column. column.items ≡ spec.column_of rows.now at) }
{
    let mut column = Vec::with_capacity(alloc, rows.len())?;
    for row in rows.as_slice() {
        column.push(Ok(RowRef::Held(row).field(at).to_value(alloc)?))?;
    }
    Ok(column)
}

fn as_answer(outcome: Result<Row, EvalFault>) -> Result<Row, EvalStop>
    ensures { Answers outcome result }
{
    match outcome {
        Ok(row) => Ok(row),
        Err(fault) => Err(EvalStop::Fault(fault)),
    }
}

fn gathered(alloc: Global, outcomes: Vec<Result<Row, EvalFault>>) -> Result<Gathered, EvalStop>
    ensures ok { IfOk result (λ so_far. so_far ≡ fold with_outcome nothing outcomes.items) }
    ensures err { IsNoVerdict result }
{
    let mut so_far = Gathered::new(alloc);
    for outcome in outcomes {
        so_far.take(as_answer(outcome))?;
    }
    Ok(so_far)
}

/// All rows, or the least fault. Else an `Err` is want of memory.
#[tactic(auto, using(hs_stages::proofs::Gathering::all_gathered))]
pub fn all_rows(alloc: Global, outcomes: Vec<Result<Row, EvalFault>>) -> Result<RowList, EvalFault>
    ensures { Gives result (all_or_least outcomes.items) }
{
    match gathered(alloc, outcomes) {
        Ok(so_far) => match so_far.end() {
            Ok(rows) => Ok(rows),
            Err(stop) => Err(fault_of(stop)),
        },
        Err(stop) => Err(fault_of(stop)),
    }
}
