// ORDER BY and LIMIT, by the outcomes of the keys.
ghost use Rattle.std.specs.Prelude.{◌≡◌, map, IfOk};
ghost use Rattle.hs_places.specs.Keyed.{descends};
ghost use Rattle.hs_rel.specs.Outcome.{IsMemoryAlone};
ghost use Rattle.hs_values.specs.Outcome.{Gives};
ghost use Rattle.hs_settled.specs.Parts.{sorted_given};

use crate::columns::all_rows;
use crate::fault::fault_of;
use hs_ast::Limit;
use hs_places::{behind_each, flags_of};
use hs_plan::SortKey;
use hs_values::{EvalFault, Row, RowList};
use std::alloc::Global;

/// Rows in the order of their keys, of which there is one for each row, and then of all columns; and what LIMIT leaves of
/// them. A fault is the least that a row's keys have. Else an `Err` is want of memory.
pub fn sorted(
    alloc: Global,
    order_by: &[SortKey],
    limit: Option<Limit>,
    keys: Vec<Result<Row, EvalFault>>,
    rows: RowList,
) -> Result<RowList, EvalFault>
    ensures { Gives result (sorted_given limit (map descends order_by.now) keys.items rows) }
{
    let given = all_rows(alloc, keys)?;
    let keyed = behind_each(alloc, &given, rows)?;
    let descending = flags_of(alloc, order_by)?;
    match hs_stages::ordered(keyed, &descending) {
        Ok(rows) => Ok(hs_stages::limited(rows, limit)),
        Err(stop) => Err(fault_of(stop)),
    }
}
