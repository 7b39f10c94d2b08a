// SUM and AVG.
ghost use Rattle.std.specs.Prelude.{◌≡◌};
ghost use Rattle.hs_values.specs.Order.{seen};
ghost use Rattle.hs_expression.specs.Numbers.{is_below_zero};
ghost use Rattle.hs_expression.specs.Aggregates as spec;

use crate::aggregate::counted;
use crate::{is_below_zero, is_null, plus, quotient, sum};
use hs_values::{EvalFault, Value, ValueRef};

/// The sum so far, which is NULL where there is none yet, and one more number.
fn joined_sum(so_far: ValueRef<'_>, a: ValueRef<'_>) -> Result<Value, EvalFault>
    ensures { result ≡ spec.joined_sum (seen so_far.entry) (seen a.entry) }
{
    if is_null(so_far) {
        Ok(plus(a))
    } else {
        sum(so_far, a)
    }
}

fn is_from_zero(a: ValueRef<'_>) -> bool
    ensures { result ≡ spec.is_from_zero (seen a.entry) }
{
    !is_null(a) && !is_below_zero(a)
}

/// A sum so far, unless it is out of range, and one more number.
fn joined_to(so_far: Result<Value, EvalFault>, a: ValueRef<'_>) -> Result<Value, EvalFault>
    ensures { result ≡ spec.joined_to so_far (seen a.entry) }
{
    joined_sum(so_far?.as_value_ref(), a)
}

/// The sum of the numbers that aren't below zero.
fn sum_from_zero(values: &[Value]) -> Result<Value, EvalFault>
    ensures { result ≡ spec.sum_where spec.is_from_zero values.now }
{
    let mut total = Ok(Value::Null);
    for a in values {
        if is_from_zero(a.as_value_ref()) {
            total = joined_to(total, a.as_value_ref());
        }
    }
    total
}

/// The sum of the numbers below zero.
fn sum_below_zero(values: &[Value]) -> Result<Value, EvalFault>
    ensures { result ≡ spec.sum_where is_below_zero values.now }
{
    let mut total = Ok(Value::Null);
    for a in values {
        if is_below_zero(a.as_value_ref()) {
            total = joined_to(total, a.as_value_ref());
        }
    }
    total
}

/// SUM: the numbers from zero on and those below zero are added apart.
pub(crate) fn total(values: &[Value]) -> Result<Value, EvalFault>
    ensures { result ≡ spec.total_of values.now }
{
    let above = sum_from_zero(values)?;
    let below = sum_below_zero(values)?;
    if is_null(below.as_value_ref()) {
        return Ok(above);
    }
    joined_sum(above.as_value_ref(), below.as_value_ref())
}

/// AVG: SUM divided by COUNT.
pub(crate) fn average(values: &[Value]) -> Result<Value, EvalFault>
    ensures { result ≡ spec.average_of values.now }
{
    let total = total(values)?;
    let count = counted(values)?;
    quotient(total.as_value_ref(), count.as_value_ref())
}
