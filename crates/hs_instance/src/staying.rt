// Whether the changes of a transaction may stay on the rows at their commit.
ghost use Rattle.std.specs.Prelude.{◌≡◌, true, List, IsTrue};
ghost use Rattle.hs_applicable.specs.Applicable.{may_make as may_make_one, may_make_each};
ghost use Rattle.hs_plan.specs.declared.change.Change.{Change as TheChange};
ghost use Rattle.hs_turns.specs.Database.{Database};
ghost use Rattle.hs_instance.specs.Instance.{IsInstance};
ghost use Rattle.hs_instance.specs.Staying.{are_inserts, is_insert};

use crate::instance::Instance;
use hs_applicable::may_make;
use hs_plan::Change;

// Whether a change inserts a row, and may be made on a database with these things as one of a commit.
fn stays(instance: &Instance, change: &Change) -> bool
    ensures { (db : Database) (seated : List TheChange) (behind : Database) → IsInstance db seated instance.now → behind.things ≡ db.things → IsTrue result → (is_insert change.now ≡ true) × (may_make_one behind change.now ≡ true) }
{
    match change {
        Change::Insert(_, _) => may_make(&instance.catalog, &instance.seated.rows.draft, change),
        Change::Put(_, _, _) => false,
        Change::Delete(_, _) => false,
        Change::Define(_) => false,
    }
}

/// Whether each of the changes that are on a database inserts a row, and may be made as one of a commit. Takes no memory.
pub(crate) fn may_stay(instance: &Instance, changes: &[Change]) -> bool
    ensures { (db : Database) → IsInstance db changes.now instance.now → IsTrue result → (may_make_each db changes.now ≡ true) × (are_inserts changes.now ≡ true) }
{
    for change in changes {
        if !stays(instance, change) {
            return false;
        }
    }
    true
}
