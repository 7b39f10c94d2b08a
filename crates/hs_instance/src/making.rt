// Changes that are made as far as they may be.
ghost use Rattle.std.specs.Prelude.{◌≡◌, ◌+◌, ◌^◌, ◌<◌, ◌≤◌, [], true, length, IfOk, OnOk};
ghost use Rattle.hs_applicable.specs.Applicable.{may_make};
ghost use Rattle.hs_turns.specs.Database.{Database, make};
ghost use Rattle.hs_logged.specs.Made.{IsHeld, Makes};
ghost use Rattle.hs_instance.specs.Lawful.{IsLawful, takes, takes_each};

use crate::instance::Instance;
use crate::testing::{has_room, may_be_made};
use hs_base::NoMemory;
use hs_plan::Change;

// Makes a change that may be made.
fn make_one(instance: &mut Instance, change: &Change) -> Result<(), NoMemory>
    requires room { instance.old.count < 2 ^ 48 }
    requires held { (db : Database) × (IsLawful [] instance.old db × (may_make db change.now ≡ true)) }
    ensures { (db : Database) → IsLawful [] instance.old db → may_make db change.now ≡ true → OnOk result (IsLawful [] instance.new (make db change.now)) }
{
    match change {
        Change::Define(definition) => instance.define(definition.get()),
        Change::Insert(_, _) => instance.make_row(change),
        Change::Put(_, _, _) => instance.make_row(change),
        Change::Delete(_, _) => instance.make_row(change),
    }
}

// Makes changes for which there is room, and answers whether they may be made.
fn make_each(instance: &mut Instance, changes: &[Change]) -> Result<bool, NoMemory>
    requires room { instance.old.count + length changes.now ≤ 2 ^ 48 }
    requires held { IsHeld (IsLawful []) instance.old }
    ensures { (db : Database) → IsLawful [] instance.old db → IfOk result (Makes takes_each (IsLawful [] instance.new) db changes.now) }
{
    for change in changes {
        if !may_be_made(instance, change) {
            return Ok(false);
        }
        make_one(instance, change)?;
    }
    Ok(true)
}

/// Makes the changes of a commit, with the numbers that their rows have behind it, where they may be made, and answers whether they
/// may. Where they may not, and after an `Err`, which is want of memory, nothing is known of the database.
pub(crate) fn make_all(instance: &mut Instance, changes: &[Change]) -> Result<bool, NoMemory>
    requires { IsHeld (IsLawful []) instance.old }
    ensures { (db : Database) → IsLawful [] instance.old db → IfOk result (Makes takes (IsLawful [] instance.new) db changes.now) }
{
    if !has_room(instance.count, changes.len()) {
        return Ok(false);
    }
    make_each(instance, changes)
}
