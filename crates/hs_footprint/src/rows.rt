// Committed rows.
ghost use Rattle.std.specs.Prelude.{◌≡◌, ◌++◌, OnOk, IfOk};
ghost use Rattle.hs_footprint.specs.Touched as spec;

use hs_base::{NoMemory, RowName, RowNames, RowNo, TableNo};
use hs_plan::Change;
use std::alloc::Global;

// Numbers of rows that an open transaction inserted begin here.
const FIRST_OWN: u64 = 0x8000_0000_0000_0000;

fn push_if_committed(rows: &mut RowNames, table: TableNo, row: RowNo) -> Result<(), NoMemory>
    ensures { OnOk result (rows.new ≡ rows.old ++ spec.if_committed table row) }
{
    if row.0 < FIRST_OWN {
        return rows.push(RowName { table, row });
    }
    Ok(())
}

fn push_row(rows: &mut RowNames, change: &Change) -> Result<(), NoMemory>
    ensures { OnOk result (rows.new ≡ rows.old ++ spec.rows_of change.now) }
{
    match change {
        Change::Insert(_, _) => Ok(()),
        Change::Put(table, row, _) => push_if_committed(rows, *table, *row),
        Change::Delete(table, row) => push_if_committed(rows, *table, *row),
        Change::Define(_) => Ok(()),
    }
}

fn push_rows(rows: &mut RowNames, changes: &[Change]) -> Result<(), NoMemory>
    ensures { OnOk result (rows.new ≡ rows.old ++ spec.rows_changed changes.now) }
{
    for change in changes {
        push_row(rows, change)?;
    }
    Ok(())
}

/// The committed rows that changes put or delete, in their order.
pub(crate) fn rows_changed(alloc: Global, changes: &[Change]) -> Result<RowNames, NoMemory>
    ensures { IfOk result (λ rows. rows ≡ spec.rows_changed changes.now) }
{
    let mut rows = RowNames::new(alloc);
    push_rows(&mut rows, changes)?;
    Ok(rows)
}
