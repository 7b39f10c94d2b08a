// The changes of a commit on rows.
ghost use Rattle.std.specs.Prelude.{◌≡◌, ◌+◌, ◌^◌, ◌≤◌, false, length, OnOk};
ghost use Rattle.std.specs.List.{list_any};
ghost use Rattle.hs_turns.specs.Database.{Database, apply, is_definition, make};
ghost use Rattle.hs_seated.specs.Rows.{AreRows};

use crate::seated_rows::SeatedRows;
use hs_base::{NoMemory, RowNo};
use hs_plan::Change;

// Makes a change with this number.
fn make_one(rows: &mut SeatedRows, number: u64, change: &Change) -> Result<(), NoMemory>
    ensures { (db : Database) → AreRows db.rows rows.old → db.count + 1 ≡ number → is_definition change.now ≡ false → OnOk result (AreRows (make db change.now).rows rows.new) }
{
    match change {
        Change::Insert(table, values) => {
            let values = values.copy()?;
            rows.set(*table, RowNo(number), Some(values))
        }
        Change::Put(table, row, values) => {
            let values = values.copy()?;
            rows.set(*table, *row, Some(values))
        }
        Change::Delete(table, row) => rows.set(*table, *row, None),
        Change::Define(_) => Ok(()),
    }
}

/// Makes the changes of a commit on the rows of a database with so many changes: a row that is inserted has the number of its
/// change. A definition makes nothing here.
pub(crate) fn make_all(
    rows: &mut SeatedRows,
    count: u64,
    changes: &[Change],
) -> Result<(), NoMemory>
    requires { count + length changes.now ≤ 2 ^ 48 }
    ensures { (db : Database) → AreRows db.rows rows.old → db.count ≡ count → list_any is_definition changes.now ≡ false → OnOk result (AreRows (apply db changes.now).rows rows.new) }
{
    let mut number = count;
    for change in changes {
        number += 1;
        make_one(rows, number, change)?;
    }
    Ok(())
}
