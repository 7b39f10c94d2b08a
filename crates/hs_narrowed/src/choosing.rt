// The rows of a table that a condition may choose.
ghost use Rattle.std.specs.Prelude.{◌≡◌, [], map, IfOk, IfSome};
ghost use Rattle.std.specs.FinMap.{values};
ghost use Rattle.hs_answer.specs.Answer.{value_in};
ghost use Rattle.hs_answer.specs.Places.{value_over};
ghost use Rattle.hs_changes.specs.Settings.{Maps};
ghost use Rattle.hs_rel.specs.Outcome.{IsNoVerdict, stop_of};
ghost use Rattle.hs_rel.specs.Selection.{Verdict, selected};
ghost use Rattle.hs_rows.specs.Looks.{Looks};
ghost use Rattle.hs_rows.specs.Numbers.{rows_numbered};
ghost use Rattle.hs_lookups.specs.Asked.{Asks};
ghost use Rattle.hs_narrowed.specs.Chosen.{Chooses};

use hs_base::{NoMemory, RowNos, TableNo};
use hs_expression::{Around, is_plain};
use hs_filter::true_rows;
use hs_lookups::Equalities;
use hs_plan::Expr;
use hs_rel::EvalStop;
use hs_rows::{Rows, all_rows, numbered_rows};
use hs_values::{EvalFault, RowList};
use std::alloc::Global;

/// Copies of rows of a table, of which a condition chooses the same as of all its rows: those that an index has under the
/// values that the condition asks for, else those for which it is TRUE where it has no subquery, else all. An `Err` is the
/// least fault that the condition has for a row, a stop of the rows as they gave it, or want of memory.
pub(crate) fn rows_to_choose<R: Rows>(
    alloc: Global,
    condition: &Expr,
    table: TableNo,
    rows: &mut R,
) -> Result<RowList, EvalStop>
    requires { R.ready rows.old }
    ensures rows { R.tells rows.old → (tables : Maps) → Chooses (value_over (value_in tables condition.now) []) (values (R.tables rows.old table.0)) result }
    ensures looks { Looks R.Rows (stop_of result) rows.old rows.new }
{
    let asked = Equalities::of(alloc, condition)?;
    match numbers_asked(alloc, &asked, table, rows) {
        Ok(Some(numbers)) => return numbered_rows(alloc, rows, table, &numbers),
        Ok(None) => {}
        Err(NoMemory) => return Err(EvalStop::Fault(EvalFault::NoMemory)),
    }
    if is_plain(condition) {
        return true_rows(alloc, condition, &Around::Nothing, table, rows);
    }
    all_rows(alloc, rows, table)
}

/// The numbers of rows of a table among which are all that a condition may choose, where an index has the values that it
/// asks for. An `Err` is want of memory.
fn numbers_asked<R: Rows>(
    alloc: Global,
    asked: &Equalities,
    table: TableNo,
    rows: &R,
) -> Result<Option<RowNos>, NoMemory>
    requires { R.ready rows.now }
    ensures { R.tells rows.now → IfOk result (λ found. IfSome found (λ numbers. (verdict : Verdict) → Asks verdict asked.now.columns.items asked.now.values → selected verdict (rows_numbered (R.tables rows.now table.0) (map (λ r. r.0) numbers)) ≡ selected verdict (values (R.tables rows.now table.0)))) }
{
    let Some(columns) = rows.index_among(table, asked.columns()) else {
        return Ok(None);
    };
    match asked.key(alloc, columns)? {
        Some(key) => Ok(Some(rows.rows_with(table, columns, &key)?)),
        None => Ok(None),
    }
}
