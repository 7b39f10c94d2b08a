// Copies of the tables that a query names.
ghost use Rattle.std.specs.Prelude.{◌≡◌, []};
ghost use Rattle.hs_plan.specs.Named.{named_in_query};
ghost use Rattle.hs_rel.specs.Outcome.{stop_of};
ghost use Rattle.hs_rows.specs.Looks.{Looks};
ghost use Rattle.hs_narrowed.specs.Chosen.{Serves};

use crate::alone::choice_of;
use crate::choosing::rows_to_choose;
use hs_base::Tables;
use hs_copied::{TableCopies, copies_beside, copies_of};
use hs_plan::Query;
use hs_rel::EvalStop;
use hs_rows::Rows;
use std::alloc::Global;

/// Copies of rows of the tables that a query names, which are these, each read once: over them the query has the same
/// answer. An `Err` is the fault that the query has, a stop of the rows as they gave it, or want of memory.
pub fn copies_for<R: Rows>(
    alloc: Global,
    query: &Query,
    named: &Tables,
    rows: &mut R,
) -> Result<TableCopies, EvalStop>
    requires ready { R.ready rows.old }
    requires named { named.now ≡ named_in_query query.now }
    ensures answer { R.tells rows.old → Serves query.now (R.tables rows.old) result }
    ensures looks { Looks R.Rows (stop_of result) rows.old rows.new }
{
    match choice_of(query, named) {
        Some(choice) => {
            let kept = rows_to_choose(alloc, choice.condition, choice.table, rows)?;
            copies_beside(alloc, choice.table, kept, named, rows)
        }
        None => copies_of(alloc, named, rows),
    }
}
