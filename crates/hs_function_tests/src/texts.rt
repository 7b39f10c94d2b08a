// Values as texts: NULL is `-`, a truth value TRUE or FALSE, a text stands behind a quote, a date behind D, a timestamp
// behind T, a decimal without a point behind #, and any other decimal has its point.
use hs_decimal::read;
use hs_temporal::{read_date, read_stamp};
use hs_values::{Chars, Dec, EvalFault, Value, ValueRef};
use std::alloc::Global;

fn read_decimal(text: &str) -> Value {
    let (size, below) = match text.strip_prefix('-') {
        Some(size) => (size, true),
        None => (text, false),
    };
    match read(size) {
        Some(d) if below => Value::Dec(Dec {
            units: -d.units,
            scale: d.scale,
        }),
        Some(d) => Value::Dec(d),
        None => Value::Null,
    }
}

fn read_number(text: &str) -> Value {
    match text.parse::<i64>() {
        Ok(n) => Value::Int(n),
        Err(_) => read_decimal(text),
    }
}

pub fn read_value(alloc: Global, text: &str) -> Result<Value, EvalFault> {
    match text {
        "-" => return Ok(Value::Null),
        "TRUE" => return Ok(Value::Bool(true)),
        "FALSE" => return Ok(Value::Bool(false)),
        _ => {}
    }
    if let Some(rest) = text.strip_prefix('\'') {
        return Ok(Value::Text(Chars::from_text(alloc, rest)?));
    }
    if let Some(rest) = text.strip_prefix('D') {
        return Ok(Value::Day(read_date(rest)?));
    }
    if let Some(rest) = text.strip_prefix('T') {
        return Ok(Value::Micros(read_stamp(rest)?));
    }
    match text.strip_prefix('#') {
        Some(rest) => Ok(read_decimal(rest)),
        None => Ok(read_number(text)),
    }
}

/// The operands, which are parted by bars; those that aren't there are NULL.
pub fn read_operands(alloc: Global, text: &str) -> Result<(Value, Value, Value), EvalFault> {
    let mut parts = text.split('|');
    let a = read_value(alloc, parts.next().unwrap_or("-"))?;
    let b = read_value(alloc, parts.next().unwrap_or("-"))?;
    let c = read_value(alloc, parts.next().unwrap_or("-"))?;
    Ok((a, b, c))
}

/// What a case wants: a value, or a fault behind `!`.
pub fn read_wanted(alloc: Global, text: &str) -> Result<Value, EvalFault> {
    match text {
        "!division" => Err(EvalFault::DivisionByZero),
        "!range" => Err(EvalFault::Range),
        "!long" => Err(EvalFault::TooLong),
        "!date" => Err(EvalFault::BadDate),
        _ => read_value(alloc, text),
    }
}

/// Whether two values are of one kind and written alike.
fn alike(a: ValueRef<'_>, b: ValueRef<'_>) -> bool {
    match (a, b) {
        (ValueRef::Null, ValueRef::Null) => true,
        (ValueRef::Int(x), ValueRef::Int(y)) => x == y,
        (ValueRef::Dec(x), ValueRef::Dec(y)) => x == y,
        (ValueRef::Text(x), ValueRef::Text(y)) => x == y,
        (ValueRef::Bool(x), ValueRef::Bool(y)) => x == y,
        (ValueRef::Day(x), ValueRef::Day(y)) => x == y,
        (ValueRef::Micros(x), ValueRef::Micros(y)) => x == y,
        _ => false,
    }
}

pub fn is_wanted(given: &Result<Value, EvalFault>, wanted: &Result<Value, EvalFault>) -> bool {
    match (given, wanted) {
        (Ok(a), Ok(b)) => alike(a.as_value_ref(), b.as_value_ref()),
        (Err(a), Err(b)) => a == b,
        _ => false,
    }
}
