// Lists of parts of an expression, of which each is evaluated until one decides.
ghost use Rattle.std.specs.Prelude.{false};
ghost use Rattle.hs_copied.specs.Copies.{maps_of};
ghost use Rattle.hs_expression.specs.Surroundings.{surroundings_of};
ghost use Rattle.hs_values.specs.declared.value.Value.TheVariants as v;
ghost use Rattle.hs_values.specs.Order.{seen};
ghost use Rattle.hs_values.specs.Outcome.{Gives};
ghost use Rattle.hs_eval.specs.Parts.{chosen_by, found_by, known_by};

use crate::expressions::value;
use hs_copied::TableCopies;
use hs_expression::{Place, disjunction, equal_test, is_null, is_true, readable};
use hs_plan::{CaseArm, Expr, ListItem};
use hs_values::{EvalFault, Value, ValueRef};

/// Whether a value is equal to one of a list.
#[cycle(evaluation)]
pub(crate) fn found_in(
    list: &[ListItem],
    x: ValueRef<'_>,
    copies: &TableCopies,
    place: &Place<'_>,
) -> Result<Value, EvalFault>
    ensures { Gives result (found_by (maps_of copies.now) (surroundings_of place.now) (seen x.entry) (v.Bool false) list.now) }
{
    let mut so_far = Value::Bool(false);
    for item in list {
        readable(item.reading)?;
        let y = value(&item.value, copies, place)?;
        let equal = equal_test(item.reading, x, y.as_value_ref())?;
        if is_true(equal.as_value_ref()) {
            return Ok(equal);
        }
        so_far = disjunction(so_far.as_value_ref(), equal.as_value_ref());
    }
    Ok(so_far)
}

/// What the first arm gives whose test is TRUE.
#[cycle(evaluation)]
pub(crate) fn chosen(
    arms: &[CaseArm],
    copies: &TableCopies,
    place: &Place<'_>,
) -> Result<Option<Value>, EvalFault>
    ensures { Gives result (chosen_by (maps_of copies.now) (surroundings_of place.now) arms.now) }
{
    for arm in arms {
        let test = value(&arm.test, copies, place)?;
        if is_true(test.as_value_ref()) {
            return Ok(Some(value(&arm.value, copies, place)?));
        }
    }
    Ok(None)
}

/// The first value that isn't NULL.
#[cycle(evaluation)]
pub(crate) fn first_known(
    operands: &[Expr],
    copies: &TableCopies,
    place: &Place<'_>,
) -> Result<Value, EvalFault>
    ensures { Gives result (known_by (maps_of copies.now) (surroundings_of place.now) operands.now) }
{
    for e in operands {
        let x = value(e, copies, place)?;
        if !is_null(x.as_value_ref()) {
            return Ok(x);
        }
    }
    Ok(Value::Null)
}
