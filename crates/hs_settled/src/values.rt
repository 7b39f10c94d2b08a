// Rows of VALUES.
ghost use Rattle.std.specs.Prelude.{◌≡◌, IfOk};
ghost use Rattle.hs_answer.specs.Bodies.{given_row};
ghost use Rattle.hs_settled.specs.Columns.{given_value};

use hs_expression::given_at;
use hs_plan::Kind;
use hs_values::{EvalFault, Row, Value};
use std::alloc::{AllocError, Global};
use std::mem;

fn given_value(kind: Kind, outcome: Result<Value, EvalFault>) -> Result<Value, EvalFault>
    ensures { result ≡ given_value kind outcome }
{
    given_at(kind, outcome?)
}

/// The values of a row, each at the kind of its column, or the first fault: that of a value, or `Range` of giving it. An `Err` is
/// want of memory.
#[tactic(auto, using(crate::proofs::Widening::from_nothing, crate::proofs::Widening::none_left, crate::proofs::Widening::no_kind_left))]
pub fn given(
    alloc: Global,
    kinds: &[Kind],
    outcomes: Vec<Result<Value, EvalFault>>,
) -> Result<Result<Row, EvalFault>, AllocError>
    ensures { IfOk result (λ row. row ≡ given_row kinds.now outcomes.items) }
{
    let mut left = outcomes;
    let mut row = Row::new(alloc);
    for (i, slot) in left.iter_mut().enumerate() {
        if i >= kinds.len() {
            return Ok(Ok(row));
        }
        match given_value(kinds[i], mem::replace(slot, Ok(Value::Null))) {
            Ok(value) => row.push(value)?,
            Err(fault) => return Ok(Err(fault)),
        }
    }
    Ok(Ok(row))
}
