// Indexes over columns of a table.
ghost use Rattle.std.specs.Prelude.{◌≡◌, [], Some, None, All, Contains, IfSome, IsTrue, OnOk, OnErr};
ghost use Rattle.std.specs.FinMap.{get, insert, remove};
ghost use Rattle.hs_index.specs.Table.{Rows, IsIndexOf};
ghost use Rattle.hs_keyed.specs.Kept.{AreOf};

use hs_base::{NoMemory, RowNo};
use hs_index::{Index, has_gap, key_in};
use hs_values::Value;
use sqlite_items::Items;
use std::alloc::Global;

/// An index over these columns.
#[derive(Drop)]
pub(crate) struct KeyIndex {
    pub(crate) columns: Items<u32>,
    pub(crate) index: Index,
}

impl KeyIndex {
    // Puts a row under its key, where this has no NULL.
    pub(crate) fn put(
        &mut self,
        alloc: Global,
        row: RowNo,
        values: &[Value],
    ) -> Result<(), NoMemory>
        ensures columns { self.new.columns ≡ self.old.columns }
        ensures ok { OnOk result ((rows : Rows) → get rows row.0 ≡ None → IsIndexOf self.old.columns rows self.old.index → IsIndexOf self.old.columns (insert rows row.0 values.now) self.new.index) }
    {
        if has_gap(self.columns.as_slice(), values) {
            return Ok(());
        }
        let key = key_in(alloc, self.columns.as_slice(), values)?;
        self.index.insert(key, row)
    }

    // Takes a row out from under its key.
    fn take(&mut self, alloc: Global, row: RowNo, values: &[Value]) -> Result<(), NoMemory>
        ensures columns { self.new.columns ≡ self.old.columns }
        ensures ok { OnOk result ((rows : Rows) → get rows row.0 ≡ Some values.now → IsIndexOf self.old.columns rows self.old.index → IsIndexOf self.old.columns (remove rows row.0) self.new.index) }
    {
        if has_gap(self.columns.as_slice(), values) {
            return Ok(());
        }
        let key = key_in(alloc, self.columns.as_slice(), values)?;
        self.index.remove(&key, row);
        Ok(())
    }

    // Puts another number in the place of a row's under its key.
    fn exchange(
        &mut self,
        alloc: Global,
        from: RowNo,
        to: RowNo,
        values: &[Value],
    ) -> Result<(), NoMemory>
        ensures columns { self.new.columns ≡ self.old.columns }
        ensures ok { OnOk result ((rows : Rows) → get rows from.0 ≡ Some values.now → get (remove rows from.0) to.0 ≡ None → IsIndexOf self.old.columns rows self.old.index → IsIndexOf self.old.columns (insert (remove rows from.0) to.0 values.now) self.new.index) }
    {
        if has_gap(self.columns.as_slice(), values) {
            return Ok(());
        }
        let key = key_in(alloc, self.columns.as_slice(), values)?;
        self.index.exchange(key, from, to)
    }
}

/// The first index over these columns.
pub(crate) fn index_over<'a>(indexes: &'a [KeyIndex], columns: &[u32]) -> Option<&'a Index>
    ensures { IfSome result (λ index. (rows : Rows) → AreOf rows indexes.now → IsIndexOf columns.now rows index.now) }
{
    for each in indexes {
        if each.columns.as_slice() == columns {
            return Some(&each.index);
        }
    }
    None
}

/// The columns of the first index all of whose columns are among these.
pub(crate) fn columns_among<'a>(indexes: &'a [KeyIndex], columns: &[u32]) -> Option<&'a [u32]>
    ensures { IfSome result (λ found. All (Contains columns.now) found.now) }
{
    for each in indexes {
        let own = each.columns.as_slice();
        if are_among(own, columns) {
            return Some(own);
        }
    }
    None
}

// Whether all of the first columns are among the others.
fn are_among(own: &[u32], columns: &[u32]) -> bool
    ensures { IsTrue result → All (Contains columns.now) own.now }
{
    for column in own {
        if !columns.contains(column) {
            return false;
        }
    }
    true
}

/// Puts a row that wasn't there under its keys. After an `Err` there are no indexes.
pub(crate) fn put_keys(
    indexes: &mut Vec<KeyIndex>,
    alloc: Global,
    row: RowNo,
    values: &[Value],
) -> Result<(), NoMemory>
    ensures ok { OnOk result ((rows : Rows) → get rows row.0 ≡ None → AreOf rows indexes.old.items → AreOf (insert rows row.0 values.now) indexes.new.items) }
    ensures err { OnErr result (indexes.new.items ≡ []) }
{
    for i in 0..indexes.len() {
        if indexes[i].put(alloc, row, values).is_err() {
            indexes.clear();
            return Err(NoMemory);
        }
    }
    Ok(())
}

/// Takes a row that was there out from under its keys. After an `Err` there are no indexes.
pub(crate) fn take_keys(
    indexes: &mut Vec<KeyIndex>,
    alloc: Global,
    row: RowNo,
    values: &[Value],
) -> Result<(), NoMemory>
    ensures ok { OnOk result ((rows : Rows) → get rows row.0 ≡ Some values.now → AreOf rows indexes.old.items → AreOf (remove rows row.0) indexes.new.items) }
    ensures err { OnErr result (indexes.new.items ≡ []) }
{
    for i in 0..indexes.len() {
        if indexes[i].take(alloc, row, values).is_err() {
            indexes.clear();
            return Err(NoMemory);
        }
    }
    Ok(())
}

/// Puts another number in the place of a row's under its keys. After an `Err` there are no indexes.
pub(crate) fn exchange_keys(
    indexes: &mut Vec<KeyIndex>,
    alloc: Global,
    from: RowNo,
    to: RowNo,
    values: &[Value],
) -> Result<(), NoMemory>
    ensures ok { OnOk result ((rows : Rows) → get rows from.0 ≡ Some values.now → get (remove rows from.0) to.0 ≡ None → AreOf rows indexes.old.items → AreOf (insert (remove rows from.0) to.0 values.now) indexes.new.items) }
    ensures err { OnErr result (indexes.new.items ≡ []) }
{
    for i in 0..indexes.len() {
        if indexes[i].exchange(alloc, from, to, values).is_err() {
            indexes.clear();
            return Err(NoMemory);
        }
    }
    Ok(())
}
