// Set operations.
ghost use Rattle.hs_rel.specs.Outcome.{Answers};
ghost use Rattle.hs_values.specs.Outcome.{Gives};
ghost use Rattle.hs_settled.specs.Parts.{sides_given};

use crate::fault::fault_of;
use hs_ast::SetOperator;
use hs_plan::Kind;
use hs_rel::EvalStop;
use hs_values::{EvalFault, RowList};
use std::alloc::Global;

fn sides(
    alloc: Global,
    operator: SetOperator,
    kinds: &[Kind],
    above: RowList,
    below: RowList,
) -> Result<RowList, EvalStop>
    ensures { Answers (sides_given operator kinds.now above below) result }
{
    let left = hs_stages::side_rows(alloc, kinds, above)?;
    let right = hs_stages::side_rows(alloc, kinds, below)?;
    hs_stages::combined(alloc, operator, left, right)
}

/// The rows of a set operation: those of each side given at the kinds of their columns, and then combined. A fault is
/// `Range`, of the left side first. Else an `Err` is want of memory.
pub fn combined(
    alloc: Global,
    operator: SetOperator,
    kinds: &[Kind],
    above: RowList,
    below: RowList,
) -> Result<RowList, EvalFault>
    ensures { Gives result (sides_given operator kinds.now above below) }
{
    match sides(alloc, operator, kinds, above, below) {
        Ok(rows) => Ok(rows),
        Err(stop) => Err(fault_of(stop)),
    }
}
