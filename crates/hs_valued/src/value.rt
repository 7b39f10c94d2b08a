// Values and conditions.
ghost use Rattle.hs_values.specs.Outcome.{Gives};
ghost use Rattle.hs_expression.specs.Expression.{value_of};
ghost use Rattle.hs_expression.specs.Surroundings.{surroundings_of};
ghost use Rattle.hs_valued.specs.Parts.{holds};

use crate::evaluation::evaluate;
use hs_expression::{Place, is_true};
use hs_plan::Expr;
use hs_values::{EvalFault, Value};

/// The value of an expression without subqueries at its place; one that stands in it counts as one without rows. The
/// test is `is_plain` of `hs_expression`. An `Err` is the fault that it has, or want of memory.
pub fn value_at(e: &Expr, place: &Place<'_>) -> Result<Value, EvalFault>
    ensures { Gives result (value_of e.now (surroundings_of place.now)) }
{
    let x = evaluate(e, place)?;
    Ok(x.into_value(place.alloc)?)
}

/// Whether a condition without subqueries is TRUE at its place, which neither FALSE nor NULL is; a subquery that stands
/// in it counts as one without rows. An `Err` is the fault that it has, or want of memory.
pub fn is_met(e: &Expr, place: &Place<'_>) -> Result<bool, EvalFault>
    ensures { Gives result (holds (value_of e.now (surroundings_of place.now))) }
{
    let x = evaluate(e, place)?;
    Ok(is_true(x.as_value_ref()))
}
