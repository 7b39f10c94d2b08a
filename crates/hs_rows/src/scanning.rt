// All rows of a table, one after another.
ghost use Rattle.std.specs.Prelude.{◌≡◌, fold, OnOk};
ghost use Rattle.std.specs.FinMap.{values};
ghost use Rattle.hs_rel.specs.Outcome.{IsNoVerdict, stop_of};
ghost use Rattle.hs_rows.specs.Looks.{Looks};

use crate::rows::Rows;
use crate::takes::Takes;
use hs_base::TableNo;
use hs_rel::EvalStop;

/// Lends each row of a table, in the order of their numbers. An `Err` is a stop of the rows as they gave it, or want
/// of memory.
pub fn scan<R: Rows, T: Takes>(rows: &mut R, table: TableNo, taker: &mut T) -> Result<(), EvalStop>
    requires { R.ready rows.old }
    ensures ok { R.tells rows.old → OnOk result (taker.new ≡ fold T.taken taker.old (values (R.tables rows.old table.0))) }
    ensures err { IsNoVerdict result }
    ensures looks { Looks R.Rows (stop_of result) rows.old rows.new }
{
    let mut after = None;
    while let Some(row) = rows.next_row(table, after) {
        if rows.bring(table, row)? {
            taker.take(rows.look(table, row))?;
        }
        after = Some(row);
    }
    Ok(())
}
