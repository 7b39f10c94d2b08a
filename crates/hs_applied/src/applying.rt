// The changes of a statement.
ghost use Rattle.std.specs.Prelude.{◌≡◌, ℕ, ◌+◌, ◌^◌, ◌||◌, IfOk, OnOk};
ghost use Rattle.hs_applied.specs.Applied.{AreSet, Keeps};
ghost use Rattle.hs_applied.specs.Undone.{olds_of, undone};
ghost use Rattle.hs_changes.specs.Changes.{after_changes, count_inserted, own_row, setting_of, settings_of};
ghost use Rattle.hs_changes.specs.Settings.{is_set};
ghost use Rattle.hs_draft.specs.Drafted.{after, before, touched};
ghost use Rattle.hs_sentences.specs.Asking.{is_one_of};

use crate::undo::Undo;
use hs_base::{NoMemory, RowNo, TableNo};
use hs_draft::Draft;
use hs_plan::Change;
use hs_values::Row;

// The number before the first one of a row that an open transaction inserts.
const BEFORE_OWN: u64 = 0x8000_0000_0000_0000;

// The number of the row that is inserted behind so many others.
fn own_number(inserted: u64) -> Result<RowNo, NoMemory>
    ensures { IfOk result (λ row. row.0 ≡ own_row (inserted + 1)) }
{
    if inserted >= BEFORE_OWN - 1 {
        // So many rows are beyond all memory.
        return Err(NoMemory);
    }
    Ok(RowNo(BEFORE_OWN + (inserted + 1)))
}

// Sets a row where there is one to be set, and keeps what it was.
fn insert(
    draft: &mut Draft,
    undo: &mut Undo,
    inserted: u64,
    table: TableNo,
    values: &Row,
) -> Result<u64, NoMemory>
    ensures count { IfOk result (λ count. count ≡ inserted + 1) }
    ensures set { OnOk result (AreSet (setting_of inserted (Change.Insert table values.now)) draft.old draft.new) }
    ensures keeps { Keeps draft.old draft.new (olds_of undo.old) (olds_of undo.new) }
{
    let row = own_number(inserted)?;
    let values = values.copy()?;
    undo.set(draft, table, row, Some(values))?;
    Ok(inserted + 1)
}

fn put(
    draft: &mut Draft,
    undo: &mut Undo,
    table: TableNo,
    row: RowNo,
    values: &Row,
) -> Result<(), NoMemory>
    ensures set { (inserted : ℕ) → OnOk result (AreSet (setting_of inserted (Change.Put table row values.now)) draft.old draft.new) }
    ensures keeps { Keeps draft.old draft.new (olds_of undo.old) (olds_of undo.new) }
{
    let values = values.copy()?;
    undo.set(draft, table, row, Some(values))
}

// Makes a change behind so many inserts, and answers how many there are then.
fn apply_one(
    draft: &mut Draft,
    undo: &mut Undo,
    inserted: u64,
    change: &Change,
) -> Result<u64, NoMemory>
    ensures count { IfOk result (λ count. count ≡ inserted + count_inserted change.now) }
    ensures set { OnOk result (AreSet (setting_of inserted change.now) draft.old draft.new) }
    ensures keeps { Keeps draft.old draft.new (olds_of undo.old) (olds_of undo.new) }
{
    match change {
        Change::Insert(table, values) => insert(draft, undo, inserted, *table, values),
        Change::Put(table, row, values) => {
            put(draft, undo, *table, *row, values)?;
            Ok(inserted)
        }
        Change::Delete(table, row) => {
            undo.set(draft, *table, *row, None)?;
            Ok(inserted)
        }
        Change::Define(_) => Ok(inserted),
    }
}

fn apply_all(
    draft: &mut Draft,
    undo: &mut Undo,
    inserted: u64,
    changes: &[Change],
) -> Result<(), NoMemory>
    ensures set { OnOk result (AreSet (settings_of inserted changes.now) draft.old draft.new) }
    ensures keeps { Keeps draft.old draft.new (olds_of undo.old) (olds_of undo.new) }
{
    let mut count = inserted;
    for change in changes {
        count = apply_one(draft, undo, count, change)?;
    }
    Ok(())
}

/// Makes changes of rows on a draft, one after another, and keeps what the rows were, so that they can be put back.
/// The row that the i-th insert of a transaction makes has the number 2^63 + i, and `inserted` of them were made
/// before. A definition changes nothing here. After an `Err`, which is want of memory, some changes may be made, and
/// what is kept leads back.
pub fn apply(
    draft: &mut Draft,
    undo: &mut Undo,
    inserted: u64,
    changes: &[Change],
) -> Result<(), NoMemory>
    ensures after { OnOk result ((table : ℕ) → after draft.new table ≡ after_changes inserted (after draft.old) changes.now table) }
    ensures touched { OnOk result ((table row : ℕ) → is_one_of (touched draft.new table) row ≡ (is_set table row (settings_of inserted changes.now) || is_one_of (touched draft.old table) row)) }
    ensures before { (table : ℕ) → before draft.new table ≡ before draft.old table }
    ensures back { (table : ℕ) → undone (after draft.new) (olds_of undo.new) table ≡ undone (after draft.old) (olds_of undo.old) table }
{
    apply_all(draft, undo, inserted, changes)
}
