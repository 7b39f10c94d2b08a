// Rows with their indexes, one row after another.
ghost use Rattle.std.specs.Prelude.{◌≡◌, [], None, OnOk, OnErr};
ghost use Rattle.std.specs.FinMap.{get, insert, remove};
ghost use Rattle.hs_keyed.specs.Kept.{rows_of, AreOf, moved};

use crate::indexes::{KeyIndex, exchange_keys, put_keys, take_keys};
use hs_base::{NoMemory, RowNo};
use hs_values::Row;
use std::alloc::Global;
use std::collections::BTreeMap;

/// Gives a row these values. After an `Err` the rows are as they were, and there are no indexes.
pub(crate) fn put_entry(
    rows: &mut BTreeMap<u64, Row>,
    indexes: &mut Vec<KeyIndex>,
    alloc: Global,
    row: RowNo,
    values: Row,
) -> Result<(), NoMemory>
    requires { AreOf (rows_of rows.old.entries) indexes.old.items }
    ensures kept { AreOf (rows_of rows.new.entries) indexes.new.items }
    ensures ok { OnOk result (rows_of rows.new.entries ≡ insert (rows_of rows.old.entries) row.0 values) }
    ensures err { OnErr result (rows.new.entries ≡ rows.old.entries) }
{
    forget(rows, indexes, alloc, row)?;
    put_keys(indexes, alloc, row, values.as_slice())?;
    set_entry(rows, indexes, row, values)?;
    Ok(())
}

/// Takes a row out, where it is there. After an `Err` the rows are as they were, and there are no indexes.
pub(crate) fn take_entry(
    rows: &mut BTreeMap<u64, Row>,
    indexes: &mut Vec<KeyIndex>,
    alloc: Global,
    row: RowNo,
) -> Result<(), NoMemory>
    requires { AreOf (rows_of rows.old.entries) indexes.old.items }
    ensures kept { AreOf (rows_of rows.new.entries) indexes.new.items }
    ensures ok { OnOk result (rows_of rows.new.entries ≡ remove (rows_of rows.old.entries) row.0) }
    ensures err { OnErr result (rows.new.entries ≡ rows.old.entries) }
{
    forget(rows, indexes, alloc, row)?;
    drop_entry(rows, row);
    Ok(())
}

/// Gives a row another number, where it is there. After an `Err` there are no indexes.
pub(crate) fn move_entry(
    rows: &mut BTreeMap<u64, Row>,
    indexes: &mut Vec<KeyIndex>,
    alloc: Global,
    from: RowNo,
    to: RowNo,
) -> Result<(), NoMemory>
    requires { AreOf (rows_of rows.old.entries) indexes.old.items }
    ensures kept { AreOf (rows_of rows.new.entries) indexes.new.items }
    ensures ok { OnOk result (rows_of rows.new.entries ≡ moved (rows_of rows.old.entries) from.0 to.0) }
{
    let Some(values) = rows.remove(&from.0) else {
        return Ok(());
    };
    exchange_keys(indexes, alloc, from, to, values.as_slice())?;
    place_entry(rows, indexes, to, values)
}

// Puts a row among the others. Where there is one of its number, or after an `Err`, there are no indexes.
fn place_entry(
    rows: &mut BTreeMap<u64, Row>,
    indexes: &mut Vec<KeyIndex>,
    row: RowNo,
    values: Row,
) -> Result<(), NoMemory>
    ensures ok { OnOk result (rows_of rows.new.entries ≡ insert (rows_of rows.old.entries) row.0 values) }
    ensures kept { (get (rows_of rows.old.entries) row.0 ≡ None → AreOf (insert (rows_of rows.old.entries) row.0 values) indexes.old.items) → AreOf (rows_of rows.new.entries) indexes.new.items }
{
    match rows.insert(row.0, values) {
        Ok(None) => Ok(()),
        Ok(Some(_)) => {
            indexes.clear();
            Ok(())
        }
        Err(_back) => {
            indexes.clear();
            Err(NoMemory)
        }
    }
}

// Takes a row out from under its keys, where it is there. After an `Err` there are no indexes.
fn forget(
    rows: &BTreeMap<u64, Row>,
    indexes: &mut Vec<KeyIndex>,
    alloc: Global,
    row: RowNo,
) -> Result<(), NoMemory>
    requires { AreOf (rows_of rows.now.entries) indexes.old.items }
    ensures ok { OnOk result (AreOf (remove (rows_of rows.now.entries) row.0) indexes.new.items) }
    ensures err { OnErr result (indexes.new.items ≡ []) }
{
    match rows.get(&row.0) {
        Some(values) => take_keys(indexes, alloc, row, values.as_slice()),
        None => Ok(()),
    }
}

// Puts a row among the others. After an `Err` there are no indexes.
fn set_entry(
    rows: &mut BTreeMap<u64, Row>,
    indexes: &mut Vec<KeyIndex>,
    row: RowNo,
    values: Row,
) -> Result<(), NoMemory>
    ensures ok { OnOk result (rows_of rows.new.entries ≡ insert (rows_of rows.old.entries) row.0 values) }
    ensures same { OnOk result (indexes.new.items ≡ indexes.old.items) }
    ensures err { OnErr result (rows.new.entries ≡ rows.old.entries) }
    ensures none { OnErr result (indexes.new.items ≡ []) }
{
    match rows.insert(row.0, values) {
        Ok(_old) => Ok(()),
        Err(_back) => {
            indexes.clear();
            Err(NoMemory)
        }
    }
}

fn drop_entry(rows: &mut BTreeMap<u64, Row>, row: RowNo)
    ensures { rows_of rows.new.entries ≡ remove (rows_of rows.old.entries) row.0 }
{
    let _old = rows.remove(&row.0);
}
