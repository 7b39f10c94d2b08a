// Values given at a kind, and literal texts that are read.
ghost use Rattle.std.specs.Prelude.{◌≡◌};
ghost use Rattle.hs_values.specs.Order.{seen};
ghost use Rattle.hs_expression.specs.Kinds as spec;

use hs_plan::{Kind, Reading};
use hs_values::{EvalFault, Value, ValueRef, rescale, whole};

fn at_scale(scale: u8, a: Value) -> Result<Value, EvalFault>
    ensures { result ≡ spec.at_scale scale a }
{
    match a {
        Value::Int(n) => Ok(Value::Dec(rescale(whole(n), scale)?)),
        Value::Dec(d) => Ok(Value::Dec(rescale(d, scale)?)),
        other => Ok(other),
    }
}

fn at_no_scale(a: Value) -> Result<Value, EvalFault>
    ensures { result ≡ spec.at_no_scale a }
{
    match a {
        Value::Int(_) | Value::Dec(_) => Err(EvalFault::Range),
        other => Ok(other),
    }
}

/// A value at a kind, as CASE, COALESCE, VALUES and set operations give it: a number at the kind's scale, and any
/// other value as it is. The fault is `Range`, exactly where a number at that scale has more than 38 digits, or the
/// kind is of scales above 38. Takes no memory.
pub fn given_at(kind: Kind, a: Value) -> Result<Value, EvalFault>
    ensures { result ≡ spec.given_at kind a }
{
    match kind {
        Kind::Decimal(scale) => at_scale(scale, a),
        Kind::TooWide => at_no_scale(a),
        _ => Ok(a),
    }
}

/// What a literal text is read as. The fault is `BadDate`, exactly where it is read and is none. Takes no memory.
pub fn read_value(reading: Reading) -> Result<Value, EvalFault>
    ensures { result ≡ spec.read_value reading }
{
    match reading {
        Reading::Day(day) => Ok(Value::Day(day)),
        Reading::Micros(micros) => Ok(Value::Micros(micros)),
        Reading::BadDate | Reading::BadTimestamp => Err(EvalFault::BadDate),
    }
}

/// Whether a literal text can be read as what it is compared as. The fault is `BadDate`, exactly where it is read and
/// is none. Takes no memory.
pub fn readable(reading: Option<Reading>) -> Result<(), EvalFault>
    ensures { result ≡ spec.readable reading }
{
    match reading {
        Some(Reading::BadDate | Reading::BadTimestamp) => Err(EvalFault::BadDate),
        _ => Ok(()),
    }
}
