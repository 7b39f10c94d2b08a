// Reading of tables, with the numbers of their rows.
ghost use Rattle.std.specs.Prelude.{◌≡◌, ℕ, true, IfOk, OnOk};
ghost use Rattle.std.specs.FinMap.{insert};
ghost use Rattle.hs_expression.specs.Surroundings.{row_seen};
ghost use Rattle.hs_rel.specs.Outcome.{IsMemoryAlone, IsNoVerdict, stop_of};
ghost use Rattle.hs_rows.specs.Looks.{Looks};
ghost use Rattle.hs_before.specs.Family.{is_in};
ghost use Rattle.hs_before.specs.Held.{rows_of};

use crate::held_rows::{HeldRows, TableRows};
use hs_base::{NoMemory, RowNo, TableNo, Tables};
use hs_expression::RowRef;
use hs_keyed::KeyedRows;
use hs_rel::EvalStop;
use hs_rows::{Rows, copied};
use hs_values::EvalFault;
use std::alloc::Global;

// Keeps a copy of a row that is lent.
fn keep(held: &mut KeyedRows, number: RowNo, row: RowRef<'_>) -> Result<(), EvalStop>
    ensures ok { OnOk result (held.new ≡ insert held.old number.0 (row_seen row.entry)) }
    ensures err { IsMemoryAlone result }
{
    match held.put(number, copied(row)?) {
        Ok(()) => Ok(()),
        Err(NoMemory) => Err(EvalStop::Fault(EvalFault::NoMemory)),
    }
}

// Copies of the rows of a table, with their numbers. An `Err` is a stop of the rows as they gave it, or want of memory.
fn table_rows<R: Rows>(alloc: Global, rows: &mut R, table: TableNo) -> Result<KeyedRows, EvalStop>
    requires { R.ready rows.old }
    ensures rows { R.tells rows.old → IfOk result (λ held. held ≡ R.tables rows.old table.0) }
    ensures err { IsNoVerdict result }
    ensures looks { Looks R.Rows (stop_of result) rows.old rows.new }
{
    let mut held = KeyedRows::new(alloc);
    let mut after = None;
    while let Some(row) = rows.next_row(table, after) {
        if rows.bring(table, row)? {
            keep(&mut held, row, rows.look(table, row))?;
        }
        after = Some(row);
    }
    Ok(held)
}

/// Copies of the rows of these tables, with their numbers. Each table is read as often as it is named. An `Err` is a stop
/// of the rows as they gave it, or want of memory.
pub fn rows_before<R: Rows>(
    alloc: Global,
    tables: &Tables,
    rows: &mut R,
) -> Result<HeldRows, EvalStop>
    requires { R.ready rows.old }
    ensures rows { R.tells rows.old → IfOk result (λ held. (table : ℕ) → is_in tables.now table ≡ true → rows_of held table ≡ R.tables rows.old table) }
    ensures err { IsNoVerdict result }
    ensures looks { Looks R.Rows (stop_of result) rows.old rows.new }
{
    let mut read = Vec::new(alloc);
    for table in tables.as_slice() {
        let held = table_rows(alloc, rows, *table)?;
        read.push(TableRows {
            table: *table,
            rows: held,
        })?;
    }
    Ok(HeldRows {
        tables: read,
        none: KeyedRows::new(alloc),
    })
}
