// The rows of tables that are held.
ghost use Rattle.std.specs.Prelude.{◌≡◌, ℕ, ◌==◌, map, None, Some, IfOk, OnOk, OnErr, if◌then◌else◌};
ghost use Rattle.std.specs.FinMap.{empty, insert, remove};
ghost use Rattle.std.specs.Option.{option_copied};
ghost use Rattle.hs_changes.specs.Settings.{with_values};
ghost use Rattle.hs_keyed.specs.Kept.{rows_of};
ghost use Rattle.hs_rows.specs.Numbers.{next_in, numbers_with, row_in};
ghost use Rattle.hs_plainrows.specs.Held.{rows_at};

use hs_base::{NoMemory, RowNo, RowNos, TableNo};
use hs_keyed::{numbers_in, row_behind};
use hs_values::Row;
use std::alloc::Global;
use std::collections::BTreeMap;

/// The row of a table with this number.
pub(crate) fn row_at(
    tables: &BTreeMap<u64, BTreeMap<u64, Row>>,
    table: TableNo,
    row: RowNo,
) -> Option<&Row>
    ensures { option_copied result ≡ row_in (rows_at tables.now.entries table.0) row.0 }
{
    match tables.get(&table.0) {
        Some(rows) => row_of(rows, row),
        None => None,
    }
}

fn row_of(rows: &BTreeMap<u64, Row>, row: RowNo) -> Option<&Row>
    ensures { option_copied result ≡ row_in (rows_of rows.now.entries) row.0 }
{
    rows.get(&row.0)
}

/// The row of a table with the least number behind this one, or the first row.
pub(crate) fn next_at(
    tables: &BTreeMap<u64, BTreeMap<u64, Row>>,
    table: TableNo,
    after: Option<RowNo>,
) -> Option<RowNo>
    ensures { result ≡ next_in (rows_at tables.now.entries table.0) after }
{
    match tables.get(&table.0) {
        Some(rows) => row_behind(rows, after),
        None => None,
    }
}

/// The numbers of the rows of a table that have this key in these columns.
pub(crate) fn numbers_at(
    tables: &BTreeMap<u64, BTreeMap<u64, Row>>,
    alloc: Global,
    table: TableNo,
    columns: &[u32],
    key: &Row,
) -> Result<RowNos, NoMemory>
    ensures { IfOk result (λ found. map (λ r. r.0) found ≡ numbers_with columns.now key.now (rows_at tables.now.entries table.0)) }
{
    match tables.get(&table.0) {
        Some(rows) => numbers_in(alloc, rows, columns, key),
        None => Ok(RowNos::new(alloc)),
    }
}

/// Gives a row these values, and puts it there where it isn't yet. After an `Err` the rows are as they were.
pub(crate) fn put_at(
    tables: &mut BTreeMap<u64, BTreeMap<u64, Row>>,
    alloc: Global,
    table: TableNo,
    row: RowNo,
    values: Row,
) -> Result<(), NoMemory>
    ensures ok { OnOk result ((t : ℕ) → rows_at tables.new.entries t ≡ (if t == table.0 then with_values (rows_at tables.old.entries t) row.0 (Some values) else rows_at tables.old.entries t)) }
    ensures err { OnErr result ((t : ℕ) → rows_at tables.new.entries t ≡ rows_at tables.old.entries t) }
{
    if let Some(rows) = tables.get_mut(&table.0) {
        return put_row(rows, row, values);
    }
    let made = one_row(alloc, row, values)?;
    tables.insert(table.0, made)?;
    Ok(())
}

fn put_row(rows: &mut BTreeMap<u64, Row>, row: RowNo, values: Row) -> Result<(), NoMemory>
    ensures ok { OnOk result (rows_of rows.new.entries ≡ insert (rows_of rows.old.entries) row.0 values) }
    ensures err { OnErr result (rows_of rows.new.entries ≡ rows_of rows.old.entries) }
{
    rows.insert(row.0, values)?;
    Ok(())
}

fn one_row(alloc: Global, row: RowNo, values: Row) -> Result<BTreeMap<u64, Row>, NoMemory>
    ensures { IfOk result (λ rows. rows_of rows.entries ≡ insert empty row.0 values) }
{
    let mut rows = BTreeMap::new(alloc);
    put_row(&mut rows, row, values)?;
    Ok(rows)
}

/// Takes a row out, where it is there.
pub(crate) fn remove_at(tables: &mut BTreeMap<u64, BTreeMap<u64, Row>>, table: TableNo, row: RowNo)
    ensures { (t : ℕ) → rows_at tables.new.entries t ≡ (if t == table.0 then with_values (rows_at tables.old.entries t) row.0 None else rows_at tables.old.entries t) }
{
    if let Some(rows) = tables.get_mut(&table.0) {
        remove_row(rows, row);
    }
}

fn remove_row(rows: &mut BTreeMap<u64, Row>, row: RowNo)
    ensures { rows_of rows.new.entries ≡ remove (rows_of rows.old.entries) row.0 }
{
    let _old = rows.remove(&row.0);
}
