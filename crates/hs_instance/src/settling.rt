// Rows that a transaction inserted, and that stay at its commit.
ghost use Rattle.std.specs.Prelude.{◌≡◌, ℕ, ◌+◌, ◌^◌, ◌≤◌, [], true, length, OnOk};
ghost use Rattle.hs_changes.specs.Changes.{after_changes, own_row};
ghost use Rattle.hs_draft.specs.Drafted.{after};
ghost use Rattle.hs_turns.specs.Database.{Database, IsNumbered, apply};
ghost use Rattle.hs_seated.specs.Rows.{AreRows};
ghost use Rattle.hs_seated.specs.Seated.{IsSeated};
ghost use Rattle.hs_instance.specs.Staying.{are_inserts, settled_by};

use hs_base::{NoMemory, RowNo};
use hs_plan::Change;
use hs_seated::{Seated, SeatedRows};
use std::alloc::Global;
use std::mem::replace;

// The number before the first one of a row that an open transaction inserts.
const BEFORE_OWN: u64 = 0x8000_0000_0000_0000;

// Gives a row that a change inserted its final number, where the change is so many behind those of a database.
fn renumber(
    rows: &mut SeatedRows,
    count: u64,
    inserted: u64,
    change: &Change,
) -> Result<(), NoMemory>
    requires { count + inserted ≤ 2 ^ 48 }
    ensures { OnOk result ((t : ℕ) → after rows.new.draft t ≡ settled_by (own_row inserted) (count + inserted) change.now (after rows.old.draft) t) }
{
    match change {
        Change::Insert(table, _) => {
            let own = RowNo(BEFORE_OWN + inserted);
            rows.draft.renumber(*table, own, RowNo(count + inserted))
        }
        Change::Put(_, _, _) => Ok(()),
        Change::Delete(_, _) => Ok(()),
        Change::Define(_) => Ok(()),
    }
}

fn renumber_all(rows: &mut SeatedRows, count: u64, changes: &[Change]) -> Result<(), NoMemory>
    requires { count + length changes.now ≤ 2 ^ 48 }
    ensures { (db : Database) → AreRows (after_changes 0 db.rows changes.now) rows.old → db.count ≡ count → IsNumbered db → are_inserts changes.now ≡ true → OnOk result (AreRows (apply db changes.now).rows rows.new) }
{
    let mut inserted = 0;
    for change in changes {
        inserted += 1;
        renumber(rows, count, inserted, change)?;
    }
    Ok(())
}

/// Commits the changes that are on rows, each of which inserts a row, on a database with so many changes: the rows stay, and get
/// the numbers of their changes. No changes are on the rows then. An `Err` is want of memory, and then nothing is known of the
/// rows.
pub(crate) fn settle(
    alloc: Global,
    seated: &mut Seated,
    count: u64,
    changes: &[Change],
) -> Result<(), NoMemory>
    requires { count + length changes.now ≤ 2 ^ 48 }
    ensures { (db : Database) → IsSeated db.rows changes.now seated.old → db.count ≡ count → IsNumbered db → are_inserts changes.now ≡ true → OnOk result (IsSeated (apply db changes.now).rows [] seated.new) }
{
    renumber_all(&mut seated.rows, count, changes)?;
    let mut rows = replace(&mut seated.rows, SeatedRows::new(alloc));
    rows.accept();
    *seated = Seated::over(alloc, rows);
    Ok(())
}
