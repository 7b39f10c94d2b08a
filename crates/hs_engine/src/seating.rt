// The changes of a transaction on a database in memory.
ghost use Rattle.std.specs.Prelude.{◌++◌, List, OnOk, take};
ghost use Rattle.hs_turns.specs.Database.{Database};
ghost use Rattle.hs_instance.specs.Instance.{IsInstance};
ghost use Rattle.hs_plan.specs.declared.change.Change.{Change as TheChange};

use hs_base::NoMemory;
use hs_instance::Instance;
use hs_plan::Changes;

/// Takes the changes behind the first so many back. An `Err` is want of memory, and then nothing is known of the
/// database.
pub(crate) fn back(instance: &mut Instance, len: usize) -> Result<(), NoMemory>
    ensures { (db : Database) (seated : List TheChange) → IsInstance db seated instance.old → OnOk result (IsInstance db (take len seated) instance.new) }
{
    instance.seated.back(len)
}

/// Makes changes of rows behind those that are there. An `Err` is want of memory, and then nothing is known of the
/// database.
pub(crate) fn advance(instance: &mut Instance, changes: &Changes) -> Result<(), NoMemory>
    ensures { (db : Database) (seated : List TheChange) → IsInstance db seated instance.old → OnOk result (IsInstance db (seated ++ changes.now) instance.new) }
{
    instance.seated.advance(changes.as_slice())
}
