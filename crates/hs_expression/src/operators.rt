// What operators, predicates and functions give, by the number of their operands.
ghost use Rattle.std.specs.Prelude.{◌≡◌};
ghost use Rattle.hs_values.specs.Order.{seen};
ghost use Rattle.hs_values.specs.Outcome.{Gives};
ghost use Rattle.hs_expression.specs.Logic as logic;
ghost use Rattle.hs_expression.specs.Operators as spec;

use crate::cast::cast_value;
use crate::kinds::read_value;
use crate::logic::{Comparison, conjunction, disjunction, is_null, is_true, negation};
use crate::moments::{extracted_value, moved_value};
use crate::numbers::{difference, minus, plus, product, quotient, remainder, size, sum};
use crate::texts::{
    concatenation, length_value, like_value, lower_value, substring_for_value, substring_value,
    trimmed_of_value, trimmed_value, upper_value,
};
use hs_ast::BinaryOperator;
use hs_plan::{Binary, Reading, Ternary, Unary};
use hs_values::{EvalFault, Value, ValueRef};
use std::alloc::Global;

/// The value of an operation on one operand. NULL gives NULL, but in IS NULL and IS NOT NULL.
pub fn unary_value(alloc: Global, operator: Unary, a: ValueRef<'_>) -> Result<Value, EvalFault>
    ensures { Gives result (spec.unary_value operator (seen a.entry)) }
{
    match operator {
        Unary::Plus => Ok(plus(a)),
        Unary::Minus => minus(a),
        Unary::Not => Ok(negation(a)),
        Unary::IsNull => Ok(Value::Bool(is_null(a))),
        Unary::IsNotNull => Ok(Value::Bool(!is_null(a))),
        Unary::Cast(column) => cast_value(alloc, column, a),
        Unary::Abs => size(a),
        Unary::Upper => upper_value(alloc, a),
        Unary::Lower => lower_value(alloc, a),
        Unary::CharLength => Ok(length_value(a)),
        Unary::Trim(form) => trimmed_value(alloc, form, a),
        Unary::Extract(field) => extracted_value(field, a),
        Unary::Interval { sign, count, unit } => moved_value(sign, count, unit, a),
    }
}

fn operator_value(
    alloc: Global,
    operator: BinaryOperator,
    a: ValueRef<'_>,
    b: ValueRef<'_>,
) -> Result<Value, EvalFault>
    ensures { Gives result (spec.operator_value operator (seen a.entry) (seen b.entry)) }
{
    match operator {
        BinaryOperator::Or => Ok(disjunction(a, b)),
        BinaryOperator::And => Ok(conjunction(a, b)),
        BinaryOperator::Equal => Ok(Comparison::Equal.value(a, b)),
        BinaryOperator::NotEqual => Ok(Comparison::NotEqual.value(a, b)),
        BinaryOperator::Less => Ok(Comparison::Less.value(a, b)),
        BinaryOperator::LessOrEqual => Ok(Comparison::LessOrEqual.value(a, b)),
        BinaryOperator::Greater => Ok(Comparison::Greater.value(a, b)),
        BinaryOperator::GreaterOrEqual => Ok(Comparison::GreaterOrEqual.value(a, b)),
        BinaryOperator::Add => sum(a, b),
        BinaryOperator::Subtract => difference(a, b),
        BinaryOperator::Concatenate => concatenation(alloc, a, b),
        BinaryOperator::Multiply => product(a, b),
        BinaryOperator::Divide => quotient(a, b),
    }
}

/// A comparison of a value, which may be read as a date or a timestamp, with another.
fn compared(
    comparison: Comparison,
    reading: Option<Reading>,
    a: ValueRef<'_>,
    b: ValueRef<'_>,
) -> Result<Value, EvalFault>
    ensures { result ≡ spec.compared_with comparison reading (seen a.entry) (seen b.entry) }
{
    match reading {
        None => Ok(comparison.value(a, b)),
        Some(reading) => {
            let read = read_value(reading)?;
            Ok(comparison.value(read.as_value_ref(), b))
        }
    }
}

/// NULLIF: NULL where both are equal, else the first.
fn null_if(
    alloc: Global,
    reading: Option<Reading>,
    a: ValueRef<'_>,
    b: ValueRef<'_>,
) -> Result<Value, EvalFault>
    ensures { Gives result (spec.null_if reading (seen a.entry) (seen b.entry)) }
{
    let equal = compared(Comparison::Equal, reading, a, b)?;
    if is_true(equal.as_value_ref()) {
        return Ok(Value::Null);
    }
    Ok(a.to_value(alloc)?)
}

/// The value of an operation on two operands. NULL on one side gives NULL, but in AND and OR, which it
/// doesn't decide, and in NULLIF, whose first operand it is not equal to.
pub fn binary_value(
    alloc: Global,
    operator: Binary,
    a: ValueRef<'_>,
    b: ValueRef<'_>,
) -> Result<Value, EvalFault>
    ensures { Gives result (spec.binary_value operator (seen a.entry) (seen b.entry)) }
{
    match operator {
        Binary::Operator(operator) => operator_value(alloc, operator, a, b),
        Binary::Mod => remainder(a, b),
        Binary::NullIf { reading } => null_if(alloc, reading, a, b),
        Binary::Like { negated, escape } => Ok(like_value(negated, escape, a, b)),
        Binary::TrimOf(form) => trimmed_of_value(alloc, form, a, b),
        Binary::SubstringFrom => substring_value(alloc, a, b),
    }
}

/// The first half of BETWEEN: whether a value is at least its least one.
pub fn least_test(
    reading: Option<Reading>,
    a: ValueRef<'_>,
    low: ValueRef<'_>,
) -> Result<Value, EvalFault>
    ensures { result ≡ spec.least_test reading (seen a.entry) (seen low.entry) }
{
    compared(Comparison::GreaterOrEqual, reading, a, low)
}

/// The second half of BETWEEN: whether a value is at most its greatest one.
pub fn greatest_test(
    reading: Option<Reading>,
    a: ValueRef<'_>,
    high: ValueRef<'_>,
) -> Result<Value, EvalFault>
    ensures { result ≡ spec.greatest_test reading (seen a.entry) (seen high.entry) }
{
    compared(Comparison::LessOrEqual, reading, a, high)
}

/// Whether a value is equal to a value of an IN list.
pub fn equal_test(
    reading: Option<Reading>,
    a: ValueRef<'_>,
    b: ValueRef<'_>,
) -> Result<Value, EvalFault>
    ensures { result ≡ spec.equal_test reading (seen a.entry) (seen b.entry) }
{
    compared(Comparison::Equal, reading, a, b)
}

/// A truth value, or NOT of it.
pub fn negated_if(negated: bool, a: Value) -> Value
    ensures { result ≡ logic.negated_if negated a }
{
    if negated {
        negation(a.as_value_ref())
    } else {
        a
    }
}

/// BETWEEN, or NOT BETWEEN, of its two halves.
pub fn between_value(negated: bool, least: ValueRef<'_>, greatest: ValueRef<'_>) -> Value
    ensures { result ≡ spec.between_value negated (seen least.entry) (seen greatest.entry) }
{
    negated_if(negated, conjunction(least, greatest))
}

/// The value of an operation on three operands. BETWEEN is both its halves; NULL on one side gives NULL in
/// SUBSTRING.
pub fn ternary_value(
    alloc: Global,
    operator: Ternary,
    a: ValueRef<'_>,
    b: ValueRef<'_>,
    c: ValueRef<'_>,
) -> Result<Value, EvalFault>
    ensures { Gives result (spec.ternary_value operator (seen a.entry) (seen b.entry) (seen c.entry)) }
{
    match operator {
        Ternary::Between { negated, low, high } => {
            let least = least_test(low, a, b)?;
            let greatest = greatest_test(high, a, c)?;
            Ok(between_value(negated, least.as_value_ref(), greatest.as_value_ref()))
        }
        Ternary::SubstringFor => substring_for_value(alloc, a, b, c),
    }
}
