// Arithmetic on numbers.
ghost use Rattle.std.specs.Prelude.{◌≡◌, IfOk};
ghost use Rattle.hs_values.specs.Decimal.{IsDecimal};
ghost use Rattle.hs_values.specs.Order.{seen};
ghost use Rattle.hs_expression.specs.Numbers as spec;

use hs_decimal::{add, div, mul, sub};
use hs_values::{Dec, EvalFault, Value, ValueRef, checked_decimal, whole};

/// Two operands as they are reckoned.
#[derive(Clone, Copy)]
pub(crate) enum Operands {
    Whole(i64, i64),
    /// With a decimal on one side the other is a decimal too.
    Decimal(Dec, Dec),
    /// One of them is NULL, or no number.
    Neither,
}

fn operands_of(a: ValueRef<'_>, b: ValueRef<'_>) -> Operands
    ensures { result ≡ spec.operands_of (seen a.entry) (seen b.entry) }
{
    match (a, b) {
        (ValueRef::Int(x), ValueRef::Int(y)) => Operands::Whole(x, y),
        (ValueRef::Int(x), ValueRef::Dec(y)) => Operands::Decimal(whole(x), y),
        (ValueRef::Dec(x), ValueRef::Int(y)) => Operands::Decimal(x, whole(y)),
        (ValueRef::Dec(x), ValueRef::Dec(y)) => Operands::Decimal(x, y),
        _ => Operands::Neither,
    }
}

/// The decimal, if it has at most 38 digits, and at most 38 of them behind the point.
pub(crate) fn lawful_decimal(d: Dec) -> Result<Dec, EvalFault>
    ensures value { result ≡ spec.lawful_decimal d }
    ensures lawful { IfOk result IsDecimal }
{
    checked_decimal(d.units, d.scale)
}

/// `+`: the sum of two numbers, NULL where one of them is NULL. The fault is `Range`, exactly where it isn't of 64
/// bits, or where a decimal at the greater scale has more than 38 digits. Takes no memory.
#[tactic(auto, using(crate::proofs::Wholes::too_wide, crate::proofs::Wholes::narrow))]
pub fn sum(a: ValueRef<'_>, b: ValueRef<'_>) -> Result<Value, EvalFault>
    ensures { result ≡ spec.sum_value (seen a.entry) (seen b.entry) }
{
    match operands_of(a, b) {
        Operands::Whole(x, y) => match x.checked_add(y) {
            Some(n) => Ok(Value::Int(n)),
            None => Err(EvalFault::Range),
        },
        Operands::Decimal(x, y) => Ok(Value::Dec(add(lawful_decimal(x)?, lawful_decimal(y)?)?)),
        Operands::Neither => Ok(Value::Null),
    }
}

/// `-`
#[tactic(auto, using(crate::proofs::Wholes::too_wide, crate::proofs::Wholes::narrow))]
pub(crate) fn difference(a: ValueRef<'_>, b: ValueRef<'_>) -> Result<Value, EvalFault>
    ensures { result ≡ spec.difference_value (seen a.entry) (seen b.entry) }
{
    match operands_of(a, b) {
        Operands::Whole(x, y) => match x.checked_sub(y) {
            Some(n) => Ok(Value::Int(n)),
            None => Err(EvalFault::Range),
        },
        Operands::Decimal(x, y) => Ok(Value::Dec(sub(lawful_decimal(x)?, lawful_decimal(y)?)?)),
        Operands::Neither => Ok(Value::Null),
    }
}

/// `*`
#[tactic(auto, using(crate::proofs::Wholes::too_wide, crate::proofs::Wholes::narrow))]
pub(crate) fn product(a: ValueRef<'_>, b: ValueRef<'_>) -> Result<Value, EvalFault>
    ensures { result ≡ spec.product_value (seen a.entry) (seen b.entry) }
{
    match operands_of(a, b) {
        Operands::Whole(x, y) => match x.checked_mul(y) {
            Some(n) => Ok(Value::Int(n)),
            None => Err(EvalFault::Range),
        },
        Operands::Decimal(x, y) => Ok(Value::Dec(mul(lawful_decimal(x)?, lawful_decimal(y)?)?)),
        Operands::Neither => Ok(Value::Null),
    }
}

/// A quotient of whole numbers, cut toward zero.
#[tactic(auto, using(crate::proofs::Wholes::too_wide, crate::proofs::Wholes::narrow))]
fn whole_quotient(x: i64, y: i64) -> Result<Value, EvalFault>
    ensures { result ≡ spec.whole_quotient x y }
{
    if y == 0 {
        return Err(EvalFault::DivisionByZero);
    }
    match x.checked_div(y) {
        Some(n) => Ok(Value::Int(n)),
        None => Err(EvalFault::Range),
    }
}

/// `/`: the quotient of two numbers, NULL where one of them is NULL, cut toward zero: of whole numbers to a whole
/// one, with a decimal at the greater scale. The fault is `DivisionByZero`, exactly where the divisor is zero, and
/// else `Range`, exactly where the quotient isn't of 64 bits, or has more than 38 digits. Takes no memory.
pub fn quotient(a: ValueRef<'_>, b: ValueRef<'_>) -> Result<Value, EvalFault>
    ensures { result ≡ spec.quotient_value (seen a.entry) (seen b.entry) }
{
    match operands_of(a, b) {
        Operands::Whole(x, y) => whole_quotient(x, y),
        Operands::Decimal(x, y) => Ok(Value::Dec(div(lawful_decimal(x)?, lawful_decimal(y)?)?)),
        Operands::Neither => Ok(Value::Null),
    }
}

fn whole_remainder(x: i64, y: i64) -> Result<Value, EvalFault>
    ensures { result ≡ spec.whole_remainder x y }
{
    if y == 0 {
        return Err(EvalFault::DivisionByZero);
    }
    Ok(Value::Int(x.wrapping_rem(y)))
}

/// MOD.
pub(crate) fn remainder(a: ValueRef<'_>, b: ValueRef<'_>) -> Result<Value, EvalFault>
    ensures { result ≡ spec.remainder_value (seen a.entry) (seen b.entry) }
{
    match (a, b) {
        (ValueRef::Int(x), ValueRef::Int(y)) => whole_remainder(x, y),
        _ => Ok(Value::Null),
    }
}

/// A `+` in front of a number: the number itself. Any other value is NULL.
pub fn plus(a: ValueRef<'_>) -> Value
    ensures { result ≡ spec.plus_value (seen a.entry) }
{
    match a {
        ValueRef::Int(n) => Value::Int(n),
        ValueRef::Dec(d) => Value::Dec(d),
        _ => Value::Null,
    }
}

#[tactic(auto, using(hs_values::proofs::DecimalWidths::too_wide))]
fn negated(d: Dec) -> Result<Dec, EvalFault>
    ensures { result ≡ spec.negated d }
{
    match d.units.checked_neg() {
        Some(units) => checked_decimal(units, d.scale),
        None => Err(EvalFault::Range),
    }
}

/// A `-` in front of a number.
#[tactic(auto, using(crate::proofs::Wholes::too_wide, crate::proofs::Wholes::narrow))]
pub(crate) fn minus(a: ValueRef<'_>) -> Result<Value, EvalFault>
    ensures { result ≡ spec.minus_value (seen a.entry) }
{
    match a {
        ValueRef::Int(n) => match n.checked_neg() {
            Some(n) => Ok(Value::Int(n)),
            None => Err(EvalFault::Range),
        },
        ValueRef::Dec(d) => Ok(Value::Dec(negated(d)?)),
        _ => Ok(Value::Null),
    }
}

/// Whether a value is a number below zero.
pub fn is_below_zero(a: ValueRef<'_>) -> bool
    ensures { result ≡ spec.is_below_zero (seen a.entry) }
{
    match a {
        ValueRef::Int(n) => n < 0,
        ValueRef::Dec(d) => d.units < 0,
        _ => false,
    }
}

/// ABS: a number without its sign.
pub(crate) fn size(a: ValueRef<'_>) -> Result<Value, EvalFault>
    ensures { result ≡ spec.abs_value (seen a.entry) }
{
    if is_below_zero(a) {
        minus(a)
    } else {
        Ok(plus(a))
    }
}
