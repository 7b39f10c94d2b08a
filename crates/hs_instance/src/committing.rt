// A transaction's changes as a commit that may be made again.
ghost use Rattle.std.specs.Prelude.{◌≡◌, ◌+◌, ◌^◌, ◌≤◌, [], length, IfOk};
ghost use Rattle.hs_turns.specs.Database.{Database};
ghost use Rattle.hs_turns.specs.Numbers as spec;
ghost use Rattle.hs_logged.specs.Made.{IsHeld, Makes};
ghost use Rattle.hs_instance.specs.Lawful.{IsLawful, takes};

use crate::instance::Instance;
use crate::making::make_all;
use crate::staying::may_stay;
use hs_base::NoMemory;
use hs_plan::Changes;
use hs_seated::numbered;

/// Commits the changes of rows that are on a database, where they may be made again with the numbers that their rows get, and
/// answers whether they may. Where they may not, and after an `Err`, which is want of memory, nothing is known of the database.
pub fn commit_lawful(instance: &mut Instance, changes: &Changes) -> Result<bool, NoMemory>
    requires room { instance.old.count + length changes.now ≤ 2 ^ 48 }
    requires held { IsHeld (IsLawful changes.now) instance.old }
    ensures { (db : Database) → IsLawful changes.now instance.old db → IfOk result (Makes takes (IsLawful [] instance.new) db (spec.numbered db.count changes.now)) }
{
    let made = numbered(instance.alloc, instance.count, changes)?;
    commit_numbered(instance, changes, &made)
}

/// The same, from the changes with these numbers too. Where each inserts a row, the rows stay, and get their numbers. Else all are
/// taken back, and those with the numbers are made in their place.
pub fn commit_numbered(
    instance: &mut Instance,
    changes: &Changes,
    made: &Changes,
) -> Result<bool, NoMemory>
    requires room { instance.old.count + length changes.now ≤ 2 ^ 48 }
    requires held { IsHeld (IsLawful changes.now) instance.old }
    requires numbered { made.now ≡ spec.numbered instance.old.count changes.now }
    ensures { (db : Database) → IsLawful changes.now instance.old db → IfOk result (Makes takes (IsLawful [] instance.new) db (spec.numbered db.count changes.now)) }
{
    let own = changes.as_slice();
    if may_stay(instance, own) {
        instance.settle(own)?;
        return Ok(true);
    }
    instance.take_back()?;
    make_all(instance, made.as_slice())
}
