// Whether changes may be made.
ghost use Rattle.std.specs.Prelude.{◌≡◌, []};
ghost use Rattle.hs_applicable.specs.Applicable as spec;
ghost use Rattle.hs_turns.specs.Database.{Database};
ghost use Rattle.hs_instance.specs.Instance.{IsInstance};
ghost use Rattle.hs_instance.specs.Lawful.{has_room_for};

use crate::instance::Instance;
use hs_applicable::may_make;
use hs_plan::Change;

// The most changes in the life of a database.
const MOST_CHANGES: u64 = 0x1_0000_0000_0000;

/// Whether so many changes behind so many keep within those that a database has in its life.
pub(crate) fn has_room(count: u64, more: usize) -> bool
    ensures { result ≡ has_room_for count more }
{
    count <= MOST_CHANGES && more as u64 <= MOST_CHANGES - count
}

/// Whether a change may be made on a database as one of a commit (`hs_applicable::may_make`). Takes no memory.
pub fn may_be_made(instance: &Instance, change: &Change) -> bool
    ensures { (db : Database) → IsInstance db [] instance.now → result ≡ spec.may_make db change.now }
{
    may_make(&instance.catalog, &instance.seated.rows.draft, change)
}
