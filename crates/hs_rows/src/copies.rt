// Copies of rows.
ghost use Rattle.std.specs.Prelude.{◌≡◌, map, IfOk};
ghost use Rattle.std.specs.FinMap.{values};
ghost use Rattle.hs_expression.specs.Surroundings.{row_seen};
ghost use Rattle.hs_rel.specs.Outcome.{IsNoVerdict, stop_of};
ghost use Rattle.hs_rows.specs.Copies.{with_copy};
ghost use Rattle.hs_rows.specs.Looks.{Looks};
ghost use Rattle.hs_rows.specs.Numbers.{rows_numbered};

use crate::rows::Rows;
use crate::scanning::scan;
use crate::takes::Takes;
use hs_base::{RowNos, TableNo};
use hs_expression::RowRef;
use hs_rel::EvalStop;
use hs_values::{Row, RowList};
use std::alloc::{AllocError, Global};

/// Copies of the rows so far.
#[derive(Drop)]
struct Copies {
    rows: RowList,
}

/// A copy of a row that is lent. An `Err` is want of memory.
pub fn copied(row: RowRef<'_>) -> Result<Row, AllocError>
    ensures { IfOk result (λ copied. copied ≡ row_seen row.entry) }
{
    match row {
        RowRef::Held(row) => row.copy(),
    }
}

impl Takes for Copies {
    ghost use Rattle.hs_rows.specs.Copies.{with_copy};

    ghost taken = { with_copy };

    fn take(&mut self, row: RowRef<'_>) -> Result<(), EvalStop> {
        self.rows.push(copied(row)?)?;
        Ok(())
    }
}

/// Copies of all rows of a table, in the order of their numbers. An `Err` is a stop of the rows as they gave it, or
/// want of memory.
pub fn all_rows<R: Rows>(alloc: Global, rows: &mut R, table: TableNo) -> Result<RowList, EvalStop>
    requires { R.ready rows.old }
    ensures rows { R.tells rows.old → IfOk result (λ copies. copies ≡ values (R.tables rows.old table.0)) }
    ensures err { IsNoVerdict result }
    ensures looks { Looks R.Rows (stop_of result) rows.old rows.new }
{
    let mut copies = Copies {
        rows: RowList::new(alloc),
    };
    scan(rows, table, &mut copies)?;
    Ok(copies.rows)
}

/// Copies of the rows of a table that have these numbers, in this order; a number without a row is passed over. An `Err`
/// is a stop of the rows as they gave it, or want of memory.
pub fn numbered_rows<R: Rows>(
    alloc: Global,
    rows: &mut R,
    table: TableNo,
    numbers: &RowNos,
) -> Result<RowList, EvalStop>
    requires { R.ready rows.old }
    ensures rows { R.tells rows.old → IfOk result (λ copies. copies ≡ rows_numbered (R.tables rows.old table.0) (map (λ r. r.0) numbers.now)) }
    ensures err { IsNoVerdict result }
    ensures looks { Looks R.Rows (stop_of result) rows.old rows.new }
{
    let mut copies = RowList::new(alloc);
    for number in numbers.as_slice() {
        if rows.bring(table, *number)? {
            copies.push(copied(rows.look(table, *number))?)?;
        }
    }
    Ok(copies)
}
