// ORDER BY and LIMIT.
ghost use Rattle.std.specs.Prelude.{◌≡◌, length, drop, IfOk};
ghost use Rattle.hs_values.specs.Sorted.{keyed_rows};
ghost use Rattle.hs_rel.specs.Outcome.{IsMemoryAlone};
ghost use Rattle.hs_answer.specs.Groups.{without_keys};
ghost use Rattle.hs_answer.specs.Order.{limited};

use hs_ast::Limit;
use hs_rel::owned::{cut, in_order};
use hs_rel::{EvalStop, Flags};
use hs_values::{Row, RowList};

/// The values of a row behind its first ones. Takes no memory.
fn without_front(row: Row, keys: usize) -> Row
    ensures { result ≡ drop keys row }
{
    let mut values = row.into_vec();
    values.drain(..keys.min(values.len()));
    Row::from_vec(values)
}

/// The rows without their first `keys` columns. An `Err` is want of memory.
pub fn without_keys(rows: RowList, keys: usize) -> Result<RowList, EvalStop>
    ensures rows { IfOk result (λ left. left ≡ without_keys keys rows) }
    ensures err { IsMemoryAlone result }
{
    let rows = rows.into_vec();
    let mut left = Vec::with_capacity(*rows.allocator(), rows.len())?;
    for row in rows {
        left.push(without_front(row, keys))?;
    }
    Ok(RowList::from_vec(left))
}

/// Rows behind their keys, of which there is a flag for each, in the order of these, descending where the flag is true, and
/// then of all further columns, ascending. NULL stands first in every column. The keys are taken off. An `Err` is want of
/// memory.
pub fn ordered(keyed: RowList, descending: &Flags) -> Result<RowList, EvalStop>
    ensures rows { IfOk result (λ rows. rows ≡ without_keys (length descending.now) (keyed_rows descending.now keyed)) }
    ensures err { IsMemoryAlone result }
{
    without_keys(in_order(keyed, descending)?, descending.len())
}

/// What LIMIT leaves: at most so many rows, behind those of OFFSET. Takes no memory.
pub fn limited(rows: RowList, limit: Option<Limit>) -> RowList
    ensures { result ≡ limited limit rows }
{
    match limit {
        None => rows,
        Some(limit) => cut(rows, limit.offset.unwrap_or(0), limit.count),
    }
}
