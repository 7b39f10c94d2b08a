// Answers that all rows give, one after another.
ghost use Rattle.std.specs.Prelude.{◌≡◌, not, ◌==◌, map, filter, Some, IfOk};
ghost use Rattle.std.specs.BTreeMap.{IsOrdered};
ghost use Rattle.std.specs.List.{list_any};
ghost use Rattle.std.specs.Ordering.{nat_cmp};
ghost use Rattle.hs_index.specs.Rows.{rows_with};
ghost use Rattle.hs_keyed.specs.Kept.{rows_of, IsOf};
ghost use Rattle.hs_rows.specs.Numbers.{numbers_with};

use crate::indexes::KeyIndex;
use crate::row_test::{RowTest, has_key};
use hs_base::{NoMemory, RowNo, RowNos};
use hs_index::Index;
use hs_values::Row;
use sqlite_items::Items;
use std::alloc::Global;
use std::collections::BTreeMap;

/// Whether one of these rows passes a test.
pub(crate) fn any_entry<T: RowTest>(
    alloc: Global,
    rows: &BTreeMap<u64, Row>,
    test: &T,
) -> Result<bool, NoMemory>
    ensures answer { IfOk result (λ is. is ≡ list_any (λ e. T.test test.now e.0 e.1) rows.now.entries) }
    ensures ordered { IsOrdered nat_cmp rows.now }
{
    for (number, row) in rows {
        if test.passes(alloc, RowNo(*number), row.as_slice())? {
            return Ok(true);
        }
    }
    Ok(false)
}

/// The numbers of those of these rows that have this key in these columns, in ascending order. A key with a NULL is no
/// key. An `Err` is want of memory.
pub fn numbers_in(
    alloc: Global,
    rows: &BTreeMap<u64, Row>,
    columns: &[u32],
    key: &Row,
) -> Result<RowNos, NoMemory>
    ensures { IfOk result (λ found. map (λ r. r.0) found ≡ numbers_with columns.now key.now (rows_of rows.now.entries)) }
{
    let mut found = RowNos::new(alloc);
    for (number, row) in rows {
        if has_key(alloc, columns, key, row.as_slice())? {
            found.push(RowNo(*number))?;
        }
    }
    Ok(found)
}

/// Whether an index has a row under a key that isn't this one.
pub(crate) fn has_another(index: &Index, key: &Row, number: RowNo) -> bool
    ensures { result ≡ list_any (λ r. not (r.0 == number.0)) (rows_with index.now key.now) }
{
    index.find(key).iter().any(|row| row.0 != number.0)
}

/// The index of these rows over these columns.
pub(crate) fn index_of(
    alloc: Global,
    rows: &BTreeMap<u64, Row>,
    columns: &[u32],
) -> Result<KeyIndex, NoMemory>
    ensures { IfOk result (IsOf (rows_of rows.now.entries)) }
{
    let mut made = KeyIndex {
        columns: Items::from_slice(alloc, columns)?,
        index: Index::new(alloc),
    };
    for (number, row) in rows {
        made.put(alloc, RowNo(*number), row.as_slice())?;
    }
    Ok(made)
}
