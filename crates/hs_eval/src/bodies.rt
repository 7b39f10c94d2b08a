// Bodies of queries: SELECT, VALUES and set operations.
ghost use Rattle.std.specs.Prelude.{◌≡◌, map, IfOk};
ghost use Rattle.hs_answer.specs.Answer.{body_in, row_in};
ghost use Rattle.hs_answer.specs.Bodies.{values_row};
ghost use Rattle.hs_copied.specs.Copies.{maps_of};
ghost use Rattle.hs_expression.specs.Outcomes.{all_or_least};
ghost use Rattle.hs_expression.specs.Surroundings.{rows_around};
ghost use Rattle.hs_places.specs.Lines.{lines_seen};
ghost use Rattle.hs_settled.specs.Giving.{GivesAs};
ghost use Rattle.hs_values.specs.Outcome.{Gives};
ghost use Rattle.hs_eval.specs.Parts.{lines_of_sides};

use crate::columns::outcomes;
use crate::select::select_lines;
use hs_ast::SetOperator;
use hs_copied::TableCopies;
use hs_expression::{Around, Place};
use hs_places::Lines;
use hs_plan::{Kind, QueryBody, ValuesRow};
use hs_settled::{all_rows, combined, given};
use hs_values::{EvalFault, Row, RowList};
use std::alloc::{AllocError, Global};

/// The lines of a body. An `Err` is its fault, or want of memory.
#[cycle(evaluation)]
pub(crate) fn body_lines(
    body: &QueryBody,
    copies: &TableCopies,
    outer: &Around<'_>,
) -> Result<Lines, EvalFault>
    ensures { GivesAs (lines_seen (rows_around outer.now)) result (body_in (maps_of copies.now) body.now (rows_around outer.now)) }
{
    match body {
        QueryBody::Select(select) => select_lines(select.get(), copies, outer),
        QueryBody::Values { kinds, rows } => {
            let rows = values_rows(rows.as_slice(), kinds.as_slice(), copies, outer)?;
            Ok(Lines { rows, over: None })
        }
        QueryBody::SetOperation {
            operator,
            kinds,
            left,
            right,
        } => {
            let above = body_lines(left.get(), copies, outer)?;
            let below = body_lines(right.get(), copies, outer)?;
            combined_lines(
                copies.allocator(),
                *operator,
                kinds.as_slice(),
                above,
                below,
            )
        }
    }
}

/// The lines of a set operation. An `Err` is the fault of giving values at the kinds of the columns, or want of memory.
fn combined_lines(
    alloc: Global,
    operator: SetOperator,
    kinds: &[Kind],
    above: Lines,
    below: Lines,
) -> Result<Lines, EvalFault>
    ensures { Gives result (lines_of_sides operator kinds.now above.rows below.rows) }
{
    let rows = combined(alloc, operator, kinds, above.rows, below.rows)?;
    Ok(Lines { rows, over: None })
}

/// The rows of VALUES. An `Err` is their least fault, or want of memory.
#[cycle(evaluation)]
fn values_rows(
    rows: &[ValuesRow],
    kinds: &[Kind],
    copies: &TableCopies,
    outer: &Around<'_>,
) -> Result<RowList, EvalFault>
    ensures { Gives result (all_or_least (map (values_row kinds.now (rows_around outer.now)) (map (row_in (maps_of copies.now)) rows.now))) }
{
    let alloc = copies.allocator();
    let mut all = Vec::with_capacity(alloc, rows.len())?;
    for row in rows {
        all.push(values_row(row, kinds, copies, outer)?)?;
    }
    all_rows(alloc, all)
}

/// A row of VALUES, or its first fault. An `Err` is want of memory.
#[cycle(evaluation)]
fn values_row(
    row: &ValuesRow,
    kinds: &[Kind],
    copies: &TableCopies,
    outer: &Around<'_>,
) -> Result<Result<Row, EvalFault>, AllocError>
    ensures { IfOk result (λ outcome. outcome ≡ values_row kinds.now (rows_around outer.now) (row_in (maps_of copies.now) row.now)) }
{
    let alloc = copies.allocator();
    let place = Place {
        alloc,
        around: &*outer,
        group: &[],
    };
    given(
        alloc,
        kinds,
        outcomes(row.values.as_slice(), copies, &place)?,
    )
}
