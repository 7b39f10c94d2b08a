// The sides of a set operation.
ghost use Rattle.std.specs.Prelude.{◌≡◌, fold, map, None, IfOk};
ghost use Rattle.hs_rel.specs.Outcome.{Answers, IsMemoryAlone, IsNoVerdict, stop_of};
ghost use Rattle.hs_expression.specs.Outcomes.{all_or_least};
ghost use Rattle.hs_answer.specs.Bodies.{combined, widened};
ghost use Rattle.hs_stages.specs.Gathering.{nothing, with_outcome};

use crate::gathered::Gathered;
use crate::given::given_row;
use hs_ast::SetOperator;
use hs_plan::Kind;
use hs_rel::EvalStop;
use hs_rel::owned::{except, intersect, union};
use hs_values::{Row, RowList};
use std::alloc::Global;

/// What a set operation makes of the rows of its sides. UNION ALL has those of the left side and then those of the right;
/// the others have one of equal rows each, in ascending order, and NULLs are equal. An `Err` is want of memory.
pub fn combined(
    alloc: Global,
    operator: SetOperator,
    left: RowList,
    right: RowList,
) -> Result<RowList, EvalStop>
    ensures rows { IfOk result (λ rows. rows ≡ combined operator left right) }
    ensures err { IsMemoryAlone result }
{
    match operator {
        SetOperator::Union => union(left, right, false),
        SetOperator::UnionAll => union(left, right, true),
        SetOperator::Except => except(alloc, left, &right),
        SetOperator::Intersect => intersect(alloc, left, &right),
    }
}

fn widened(kinds: &[Kind], row: Row) -> Result<Row, EvalStop>
    ensures row { Answers (widened kinds.now row) result }
    ensures never_stops { stop_of result ≡ None }
{
    match given_row(kinds, row) {
        Ok(row) => Ok(row),
        Err(fault) => Err(EvalStop::Fault(fault)),
    }
}

/// What the rows of a side give, one after another.
fn gathered_side(alloc: Global, kinds: &[Kind], rows: RowList) -> Result<Gathered, EvalStop>
    ensures ok { IfOk result (λ so_far. so_far ≡ fold with_outcome nothing (map (widened kinds.now) rows)) }
    ensures err { IsNoVerdict result }
    ensures never_stops { stop_of result ≡ None }
{
    let mut so_far = Gathered::new(alloc);
    for row in rows.into_vec() {
        so_far.take(widened(kinds, row))?;
    }
    Ok(so_far)
}

/// The rows of a side, each value at the kind of its column. A fault is `Range`, where a row has it. Else an `Err` is want of
/// memory.
pub fn side_rows(alloc: Global, kinds: &[Kind], rows: RowList) -> Result<RowList, EvalStop>
    ensures rows { Answers (all_or_least (map (widened kinds.now) rows)) result }
    ensures never_stops { stop_of result ≡ None }
{
    let so_far = gathered_side(alloc, kinds, rows)?;
    so_far.end()
}
