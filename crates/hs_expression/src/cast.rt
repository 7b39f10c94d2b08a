// CAST.
ghost use Rattle.std.specs.Prelude.{◌≡◌, Ok};
ghost use Rattle.std.specs.Fmt.{signed_decimal};
ghost use Rattle.hs_values.specs.Order.{seen};
ghost use Rattle.hs_values.specs.Outcome.{Gives};
ghost use Rattle.hs_expression.specs.Cast as spec;

use crate::moments::{lawful_day, lawful_moment};
use crate::numbers::lawful_decimal;
use hs_temporal::{day_and_time, moment_at, print_date, print_stamp, read_date, read_stamp};
use hs_values::{Chars, Dec, EvalFault, SqlType, Value, ValueRef, assign};
use itoa::Buffer;
use std::alloc::Global;

fn written(alloc: Global, text: &str) -> Result<Value, EvalFault>
    ensures { Gives result (Ok (Value.Text text.now)) }
{
    Ok(Value::Text(Chars::from_text(alloc, text)?))
}

fn whole_text(alloc: Global, n: i64) -> Result<Value, EvalFault>
    ensures { Gives result (Ok (Value.Text (signed_decimal n))) }
{
    written(alloc, Buffer::new().format(n))
}

fn decimal_text(alloc: Global, d: Dec) -> Result<Value, EvalFault>
    ensures { Gives result (spec.decimal_text d) }
{
    let mut text = Chars::new(alloc);
    hs_decimal::print(lawful_decimal(d)?, &mut text)?;
    Ok(Value::Text(text))
}

fn day_text(alloc: Global, day: i32) -> Result<Value, EvalFault>
    ensures { Gives result (spec.day_text day) }
{
    let mut text = Chars::new(alloc);
    print_date(lawful_day(day)?, &mut text)?;
    Ok(Value::Text(text))
}

fn moment_text(alloc: Global, micros: i64) -> Result<Value, EvalFault>
    ensures { Gives result (spec.moment_text micros) }
{
    let mut text = Chars::new(alloc);
    print_stamp(lawful_moment(micros)?, &mut text)?;
    Ok(Value::Text(text))
}

/// The text of a value, as a literal is written, but without quotes and without the words DATE and TIMESTAMP.
fn as_text(alloc: Global, a: ValueRef<'_>) -> Result<Value, EvalFault>
    ensures { Gives result (spec.as_text (seen a.entry)) }
{
    match a {
        ValueRef::Null => Ok(Value::Null),
        ValueRef::Int(n) => whole_text(alloc, n),
        ValueRef::Dec(d) => decimal_text(alloc, d),
        ValueRef::Text(text) => written(alloc, text),
        ValueRef::Bool(true) => written(alloc, "TRUE"),
        ValueRef::Bool(false) => written(alloc, "FALSE"),
        ValueRef::Day(day) => day_text(alloc, day),
        ValueRef::Micros(micros) => moment_text(alloc, micros),
    }
}

/// The date of a text or of a timestamp, and any other value as it is.
fn as_date(alloc: Global, a: ValueRef<'_>) -> Result<Value, EvalFault>
    ensures { Gives result (spec.as_date (seen a.entry)) }
{
    match a {
        ValueRef::Text(text) => Ok(Value::Day(read_date(text)?)),
        ValueRef::Micros(micros) => {
            let (day, _) = day_and_time(lawful_moment(micros)?);
            Ok(Value::Day(day))
        }
        other => Ok(other.to_value(alloc)?),
    }
}

/// The timestamp of a text or at the beginning of a date, and any other value as it is.
fn as_timestamp(alloc: Global, a: ValueRef<'_>) -> Result<Value, EvalFault>
    ensures { Gives result (spec.as_timestamp (seen a.entry)) }
{
    match a {
        ValueRef::Text(text) => Ok(Value::Micros(read_stamp(text)?)),
        ValueRef::Day(day) => Ok(Value::Micros(moment_at(lawful_day(day)?, 0))),
        other => Ok(other.to_value(alloc)?),
    }
}

fn converted(alloc: Global, to: &SqlType, a: ValueRef<'_>) -> Result<Value, EvalFault>
    ensures { Gives result (spec.converted to.now (seen a.entry)) }
{
    match to {
        SqlType::Varchar { .. } => as_text(alloc, a),
        SqlType::Date => as_date(alloc, a),
        SqlType::Stamp => as_timestamp(alloc, a),
        _ => Ok(a.to_value(alloc)?),
    }
}

/// The value of a type that CAST gives.
pub(crate) fn cast_value(alloc: Global, to: SqlType, a: ValueRef<'_>) -> Result<Value, EvalFault>
    ensures { Gives result (spec.cast_value to (seen a.entry)) }
{
    assign(converted(alloc, &to, a)?, &to)
}
