// What stays by the outcomes of a condition.
ghost use Rattle.std.specs.Prelude.{◌≡◌, Some, IfOk, fold};
ghost use Rattle.std.specs.List.{filter_map};
ghost use Rattle.hs_rel.specs.Selection.{fault_of, is_true, lesser_of};
ghost use Rattle.hs_places.specs.Picking.{picked};

use hs_values::{EvalFault, Row, RowList, Value};
use std::alloc::AllocError;
use std::mem;

fn lesser_of(a: Option<EvalFault>, b: EvalFault) -> EvalFault
    ensures { Some result ≡ lesser_of a b }
{
    match a {
        None => b,
        Some(a) => a.lesser(b),
    }
}

/// The least of a fault, where there is one, and of those among outcomes.
pub(crate) fn least_from(
    fault: Option<EvalFault>,
    outcomes: &[Result<Value, EvalFault>],
) -> Option<EvalFault>
    ensures { result ≡ fold lesser_of fault (filter_map fault_of outcomes.now) }
{
    let mut least = fault;
    for outcome in outcomes {
        if let Err(other) = outcome {
            least = Some(lesser_of(least, *other));
        }
    }
    least
}

/// Whether an outcome is TRUE.
fn is_true(outcome: &Result<Value, EvalFault>) -> bool
    ensures { result ≡ is_true outcome.now }
{
    match outcome {
        Ok(Value::Bool(b)) => *b,
        _ => false,
    }
}

/// The rows of which the outcome is TRUE.
pub(crate) fn pick_rows(
    rows: RowList,
    outcomes: &[Result<Value, EvalFault>],
) -> Result<RowList, AllocError>
    ensures { IfOk result (λ kept. kept ≡ picked rows outcomes.now) }
{
    let mut left = rows.into_vec();
    let alloc = *left.allocator();
    let mut kept = RowList::new(alloc);
    for (i, row) in left.iter_mut().enumerate() {
        if i >= outcomes.len() {
            return Ok(kept);
        }
        if is_true(&outcomes[i]) {
            kept.push(mem::replace(row, Row::new(alloc)))?;
        }
    }
    Ok(kept)
}

/// The numbers of which the outcome is TRUE.
pub(crate) fn pick_numbers(
    numbers: Vec<usize>,
    outcomes: &[Result<Value, EvalFault>],
) -> Result<Vec<usize>, AllocError>
    ensures { IfOk result (λ kept. kept.items ≡ picked numbers.items outcomes.now) }
{
    let mut left = numbers;
    let mut kept = Vec::new(*left.allocator());
    for (i, number) in left.iter_mut().enumerate() {
        if i >= outcomes.len() {
            return Ok(kept);
        }
        if is_true(&outcomes[i]) {
            kept.push(mem::replace(number, 0))?;
        }
    }
    Ok(kept)
}
