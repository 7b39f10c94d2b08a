// Queries: a body, ORDER BY and LIMIT.
ghost use Rattle.std.specs.Prelude.{◌≡◌, map, IfOk};
ghost use Rattle.hs_answer.specs.Answer.{key_in, query_in, sort_key_in};
ghost use Rattle.hs_answer.specs.Order.{keys_at};
ghost use Rattle.hs_copied.specs.Copies.{maps_of};
ghost use Rattle.hs_expression.specs.Surroundings.{rows_around};
ghost use Rattle.hs_places.specs.Lines.{lines_seen};
ghost use Rattle.hs_values.specs.Outcome.{Gives};

use crate::bodies::body_lines;
use crate::columns::column;
use hs_copied::TableCopies;
use hs_expression::Around;
use hs_places::Lines;
use hs_plan::{Key, Query, SortKey};
use hs_settled::{Spots, add_column, no_columns, output_column, sorted};
use hs_values::{EvalFault, Row, RowList, Value};
use std::alloc::AllocError;

/// The rows that a query answers in the rows around it, over copies of the tables that it names. An `Err` is the fault that
/// it has, or want of memory.
#[cycle(evaluation)]
pub fn query_rows(
    query: &Query,
    copies: &TableCopies,
    outer: &Around<'_>,
) -> Result<RowList, EvalFault>
    ensures { Gives result (query_in (maps_of copies.now) query.now (rows_around outer.now)) }
{
    let lines = body_lines(&query.body, copies, outer)?;
    let keys = sort_keys(query.order_by.as_slice(), &lines, copies, outer)?;
    sorted(
        copies.allocator(),
        query.order_by.as_slice(),
        query.limit,
        keys,
        lines.rows,
    )
}

/// What the keys of ORDER BY give for each line. An `Err` is want of memory.
#[cycle(evaluation)]
fn sort_keys(
    order_by: &[SortKey],
    lines: &Lines,
    copies: &TableCopies,
    outer: &Around<'_>,
) -> Result<Vec<Result<Row, EvalFault>>, AllocError>
    ensures { IfOk result (λ keys. keys.items ≡ map (keys_at (map (sort_key_in (maps_of copies.now)) order_by.now)) (lines_seen (rows_around outer.now) lines.now)) }
{
    let alloc = copies.allocator();
    let mut keys = no_columns(alloc, lines.rows.len())?;
    for by in order_by {
        keys = add_column(alloc, keys, key_column(&by.key, lines, copies, outer)?)?;
    }
    Ok(keys)
}

/// What a key of ORDER BY gives for each line. An `Err` is want of memory.
#[cycle(evaluation)]
fn key_column(
    key: &Key,
    lines: &Lines,
    copies: &TableCopies,
    outer: &Around<'_>,
) -> Result<Vec<Result<Value, EvalFault>>, AllocError>
    ensures { IfOk result (λ column. column.items ≡ map (key_in (maps_of copies.now) key.now) (lines_seen (rows_around outer.now) lines.now)) }
{
    match key {
        Key::Output(at) => output_column(copies.allocator(), &lines.rows, *at),
        Key::Value(e) => column(e, copies, &Spots::Keys(&*outer, lines)),
    }
}
