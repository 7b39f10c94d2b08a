// Expressions and queries over the tables that something keeps.
ghost use Rattle.std.specs.Prelude.{◌≡◌, None};
ghost use Rattle.hs_answer.specs.Answer.{answer, evaluated};
ghost use Rattle.hs_copied.specs.Copies.{maps_of};
ghost use Rattle.hs_rel.specs.Outcome.{Answers, stop_of};
ghost use Rattle.hs_rows.specs.Looks.{Looks};

use crate::expressions::value;
use crate::named::{expression_tables, query_tables};
use crate::queries::query_rows;
use hs_copied::{TableCopies, copies_of};
use hs_expression::{Around, Place, RowRef};
use hs_narrowed::copies_for;
use hs_plan::{Expr, Query};
use hs_rel::EvalStop;
use hs_rows::Rows;
use hs_values::{Row, RowList, Value};
use std::alloc::Global;

fn answer_over(query: &Query, copies: &TableCopies) -> Result<RowList, EvalStop>
    ensures answer { Answers (answer (maps_of copies.now) query.now) result }
    ensures never_stops { stop_of result ≡ None }
{
    match query_rows(query, copies, &Around::Nothing) {
        Ok(rows) => Ok(rows),
        Err(fault) => Err(EvalStop::Fault(fault)),
    }
}

fn evaluated_over(e: &Expr, copies: &TableCopies, row: &Row) -> Result<Value, EvalStop>
    ensures value { Answers (evaluated (maps_of copies.now) e.now row.now) result }
    ensures never_stops { stop_of result ≡ None }
{
    let around = Around::Row(RowRef::Held(row), &Around::Nothing);
    let place = Place {
        alloc: copies.allocator(),
        around: &around,
        group: &[],
    };
    match value(e, copies, &place) {
        Ok(value) => Ok(value),
        Err(fault) => Err(EvalStop::Fault(fault)),
    }
}

/// The rows that a query answers. An `Err` is the fault that it has, a stop of the rows as they gave it, or want of memory.
pub fn eval_query<R: Rows>(alloc: Global, query: &Query, rows: &mut R) -> Result<RowList, EvalStop>
    requires { R.ready rows.old }
    ensures answer { R.tells rows.old → Answers (answer (R.tables rows.old) query.now) result }
    ensures looks { Looks R.Rows (stop_of result) rows.old rows.new }
{
    let named = query_tables(alloc, query)?;
    let copies = copies_for(alloc, query, &named, rows)?;
    answer_over(query, &copies)
}

/// The value of an expression over a row of the table that a statement changes. An `Err` is the fault that it has, a stop of
/// the rows as they gave it, or want of memory.
pub fn eval_expr<R: Rows>(
    alloc: Global,
    e: &Expr,
    rows: &mut R,
    row: &Row,
) -> Result<Value, EvalStop>
    requires { R.ready rows.old }
    ensures value { R.tells rows.old → Answers (evaluated (R.tables rows.old) e.now row.now) result }
    ensures looks { Looks R.Rows (stop_of result) rows.old rows.new }
{
    let named = expression_tables(alloc, e)?;
    let copies = copies_of(alloc, &named, rows)?;
    evaluated_over(e, &copies, row)
}
