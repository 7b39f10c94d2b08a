// Conditions, and values of columns.
ghost use Rattle.std.specs.Prelude.{◌≡◌};
ghost use Rattle.hs_typed.specs.Rules as spec;

use crate::typed::{RuleFault, Typed};
use hs_plan::{is_assignable, is_condition, kind_of_type};
use hs_values::SqlType;

/// What stands behind WHERE, ON, HAVING or CHECK. `Types` where it is no BOOLEAN. Takes no memory.
pub fn bind_condition(a: Typed) -> Result<Typed, RuleFault>
    ensures { result ≡ spec.condition_typed a }
{
    if is_condition(a.kind) {
        Ok(a)
    } else {
        Err(RuleFault::Types)
    }
}

/// A value that is assigned to a column of a type. A literal text is read as a date or a timestamp where the column
/// has such values. `Types` where it can't be assigned. Takes no memory.
pub fn bind_assigned(a: Typed, column: &SqlType) -> Result<Typed, RuleFault>
    ensures { result ≡ spec.assigned_typed column.now a }
{
    let a = a.beside(kind_of_type(column));
    if is_assignable(column, a.kind) {
        Ok(a)
    } else {
        Err(RuleFault::Types)
    }
}
