// All aggregates.
ghost use Rattle.std.specs.Prelude.{◌≡◌, ◌<◌, ◌^◌, length, filter};
ghost use Rattle.hs_values.specs.Order.{is_there};
ghost use Rattle.hs_values.specs.Outcome.{Gives};
ghost use Rattle.hs_expression.specs.Aggregates as spec;

use crate::distinct::keep_distinct;
use crate::extremes::{greatest, least};
use crate::is_null;
use crate::totals::{average, total};
use hs_ast::Aggregate;
use hs_values::{EvalFault, Value};
use std::alloc::Global;

/// So many rows, as `COUNT(*)` gives them. The fault is `Range`, exactly where the number isn't of 64 bits.
#[tactic(auto, using(crate::proofs::Wholes::too_wide, crate::proofs::Wholes::narrow))]
pub fn count_value(n: usize) -> Result<Value, EvalFault>
    ensures { result ≡ spec.count_value n }
{
    match i64::try_from(n) {
        Ok(n) => Ok(Value::Int(n)),
        Err(_) => Err(EvalFault::Range),
    }
}

/// COUNT: how many aren't NULL.
pub(crate) fn counted(values: &[Value]) -> Result<Value, EvalFault>
    ensures { result ≡ spec.counted values.now }
{
    count_value(values.iter().filter(|a| !is_null(a.as_value_ref())).count())
}

fn aggregate_of(alloc: Global, function: Aggregate, values: &[Value]) -> Result<Value, EvalFault>
    ensures { Gives result (spec.aggregate_of function values.now) }
{
    match function {
        Aggregate::Count => counted(values),
        Aggregate::Sum => total(values),
        Aggregate::Avg => average(values),
        Aggregate::Min => Ok(least(values).to_value(alloc)?),
        Aggregate::Max => Ok(greatest(values).to_value(alloc)?),
    }
}

/// The value of an aggregate over the values of a group, of which NULLs don't count; with `distinct` one of equal
/// values counts. COUNT is how many there are. SUM adds the numbers from zero on and those below zero apart.
/// AVG is SUM divided by COUNT, cut toward zero. MIN and MAX are the first
/// and the last in the order of values. Of no value COUNT is 0 and the others are NULL. The fault is `Range`, exactly
/// where one of the sums is out of the range of its numbers.
pub fn aggregate_value(
    alloc: Global,
    function: Aggregate,
    distinct: bool,
    values: Vec<Value>,
) -> Result<Value, EvalFault>
    ensures { Gives result (spec.aggregate_value function distinct values.items) }
{
    if !distinct {
        return aggregate_of(alloc, function, &values);
    }
    let mut kept = values;
    keep_distinct(&mut kept)?;
    aggregate_of(alloc, function, &kept)
}
