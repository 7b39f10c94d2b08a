// Conditions, and values of columns.
ghost use Rattle.std.specs.Prelude.{◌≡◌};
ghost use Rattle.hs_conclusions.specs.Bound.{bound};
ghost use Rattle.hs_meaning.specs.Parts.{by_one};
ghost use Rattle.hs_typed.specs.Faults.{noted};
ghost use Rattle.hs_typed.specs.Rules.{assigned_typed, condition_typed};

use hs_meaning::note_types;
use hs_typed::{Faults, Typed, bind_assigned, bind_condition};
use hs_values::SqlType;

/// What stands behind ON, WHERE, HAVING or CHECK, at byte `at`. None where it isn't known, and where it is no BOOLEAN, which is
/// noted as a fault of types. Takes no memory.
pub fn condition(at: u32, a: Option<Typed>, faults: &mut Faults) -> Option<Typed>
    ensures part { result ≡ (by_one condition_typed at (bound a)).part }
    ensures noted { faults.new ≡ noted faults.old (by_one condition_typed at (bound a)).faults }
{
    match bind_condition(a?) {
        Ok(a) => Some(a),
        Err(_) => {
            note_types(at, faults);
            None
        }
    }
}

/// A value at byte `at` that is assigned to a column of a type. None where it isn't known, and where it can't be assigned, which
/// is noted as a fault of types. Takes no memory.
pub fn assigned(at: u32, column: &SqlType, a: Option<Typed>, faults: &mut Faults) -> Option<Typed>
    ensures part { result ≡ (by_one (assigned_typed column.now) at (bound a)).part }
    ensures noted { faults.new ≡ noted faults.old (by_one (assigned_typed column.now) at (bound a)).faults }
{
    match bind_assigned(a?, column) {
        Ok(a) => Some(a),
        Err(_) => {
            note_types(at, faults);
            None
        }
    }
}
