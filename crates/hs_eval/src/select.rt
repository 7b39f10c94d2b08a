// SELECT.
ghost use Rattle.std.specs.Prelude.{map, option_map};
ghost use Rattle.hs_answer.specs.Answer.{select_in, value_in};
ghost use Rattle.hs_answer.specs.Groups.{places_of};
ghost use Rattle.hs_answer.specs.Selects.{having_true, where_true};
ghost use Rattle.hs_copied.specs.Copies.{maps_of};
ghost use Rattle.hs_expression.specs.Surroundings.{rows_around};
ghost use Rattle.hs_answer.specs.Places.{value_over};
ghost use Rattle.hs_matching.specs.Sides.{sides_rows};
ghost use Rattle.hs_places.specs.Lines.{lines_seen};
ghost use Rattle.hs_places.specs.Places.{places_over};
ghost use Rattle.hs_rel.specs.Selection.{selected};
ghost use Rattle.hs_settled.specs.Giving.{GivesAs};
ghost use Rattle.hs_values.specs.Outcome.{Gives};
ghost use Rattle.hs_eval.specs.Parts.{item_lines};

use crate::columns::{column, column_over, row_columns};
use crate::from::{from_sides, matched_rows};
use crate::outcomes::{over_spots, row_spots};
use hs_copied::TableCopies;
use hs_expression::Around;
use hs_matching::Sides;
use hs_places::{Lines, Over};
use hs_plan::{Expr, Select};
use hs_settled::{grouped, kept, lines, true_rows};
use hs_values::{EvalFault, RowList};
use sqlite_items::Boxed;

/// The lines of a SELECT. An `Err` is its fault, or want of memory.
#[cycle(evaluation)]
pub(crate) fn select_lines(
    select: &Select,
    copies: &TableCopies,
    outer: &Around<'_>,
) -> Result<Lines, EvalFault>
    ensures { GivesAs (lines_seen (rows_around outer.now)) result (select_in (maps_of copies.now) select.now (rows_around outer.now)) }
{
    let sides = from_sides(select.from.as_slice(), copies, outer)?;
    let rows = where_rows(&select.filter, sides, copies, outer)?;
    let over = grouped_over(
        select.group_by.as_slice(),
        select.grouped,
        rows,
        copies,
        outer,
    )?;
    let kept = having_over(&select.having, over, copies, outer)?;
    item_lines(
        select.items.as_slice(),
        select.distinct,
        kept,
        copies,
        outer,
    )
}

/// The rows of FROM for which WHERE is TRUE. An `Err` is its least fault, or want of memory.
#[cycle(evaluation)]
fn where_rows(
    condition: &Option<Boxed<Expr>>,
    sides: Sides<'_>,
    copies: &TableCopies,
    outer: &Around<'_>,
) -> Result<RowList, EvalFault>
    ensures { Gives result (where_true (rows_around outer.now) (option_map (value_in (maps_of copies.now)) condition.now) (sides_rows sides.entry)) }
{
    match condition {
        Some(e) => chosen_rows(e.get(), sides, copies, outer),
        None => Ok(sides.into_rows(copies.allocator())?),
    }
}

/// The rows of FROM for which a condition is TRUE, which joins its two sides. An `Err` is its least fault, or want of memory.
#[cycle(evaluation)]
fn chosen_rows(
    condition: &Expr,
    sides: Sides<'_>,
    copies: &TableCopies,
    outer: &Around<'_>,
) -> Result<RowList, EvalFault>
    ensures { Gives result (selected (value_over (value_in (maps_of copies.now) condition.now) (rows_around outer.now)) (sides_rows sides.entry)) }
{
    match sides {
        Sides::Two(left, right) => matched_rows(
            condition,
            None,
            left.as_slice(),
            right.as_slice(),
            copies,
            outer,
        ),
        one => {
            let rows = one.into_rows(copies.allocator())?;
            let outcomes = column_over(condition, copies, outer, rows.as_slice())?;
            true_rows(rows, &outcomes)
        }
    }
}

/// The rows, or their groups where they are grouped. An `Err` is the least fault of GROUP BY, or want of memory.
#[cycle(evaluation)]
fn grouped_over(
    group_by: &[Expr],
    is_grouped: bool,
    rows: RowList,
    copies: &TableCopies,
    outer: &Around<'_>,
) -> Result<Over, EvalFault>
    ensures { GivesAs (places_over (rows_around outer.now)) result (places_of is_grouped (rows_around outer.now) (map (value_in (maps_of copies.now)) group_by.now) rows) }
{
    let keys = row_columns(group_by, copies, &row_spots(&*outer, rows.as_slice()))?;
    grouped(copies.allocator(), is_grouped, group_by.len(), keys, rows)
}

/// The rows or groups for which HAVING is TRUE. An `Err` is its least fault, or want of memory.
#[cycle(evaluation)]
fn having_over(
    condition: &Option<Boxed<Expr>>,
    over: Over,
    copies: &TableCopies,
    outer: &Around<'_>,
) -> Result<Over, EvalFault>
    ensures { GivesAs (places_over (rows_around outer.now)) result (having_true (option_map (value_in (maps_of copies.now)) condition.now) (places_over (rows_around outer.now) over)) }
{
    match condition {
        Some(e) => {
            let outcomes = column(e.get(), copies, &over_spots(&*outer, &over))?;
            kept(over, &outcomes)
        }
        None => Ok(over),
    }
}

/// What the items give of each row or group, and of equal lines one where DISTINCT is written. An `Err` is the least fault of
/// the items, or want of memory.
#[cycle(evaluation)]
fn item_lines(
    items: &[Expr],
    is_distinct: bool,
    over: Over,
    copies: &TableCopies,
    outer: &Around<'_>,
) -> Result<Lines, EvalFault>
    ensures { GivesAs (lines_seen (rows_around outer.now)) result (item_lines is_distinct (rows_around outer.now) (map (value_in (maps_of copies.now)) items.now) (places_over (rows_around outer.now) over)) }
{
    let rows = row_columns(items, copies, &over_spots(&*outer, &over))?;
    lines(copies.allocator(), is_distinct, over, rows)
}
