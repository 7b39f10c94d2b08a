// Values as texts: NULL is `-`, a truth value TRUE or FALSE, a text stands behind a quote, a decimal has its point.
use hs_decimal::read;
use hs_values::{Chars, Dec, EvalFault, Value, ValueRef};
use std::alloc::{AllocError, Global};

fn read_decimal(text: &str) -> Value {
    let (size, below) = match text.strip_prefix('-') {
        Some(size) => (size, true),
        None => (text, false),
    };
    match read(size) {
        Some(d) if below => Value::Dec(Dec {
            units: -d.units,
            scale: d.scale,
        }),
        Some(d) => Value::Dec(d),
        None => Value::Null,
    }
}

pub fn read_value(alloc: Global, text: &str) -> Result<Value, AllocError> {
    match text {
        "-" => return Ok(Value::Null),
        "TRUE" => return Ok(Value::Bool(true)),
        "FALSE" => return Ok(Value::Bool(false)),
        _ => {}
    }
    if let Some(rest) = text.strip_prefix('\'') {
        return Ok(Value::Text(Chars::from_text(alloc, rest)?));
    }
    match text.parse::<i64>() {
        Ok(n) => Ok(Value::Int(n)),
        Err(_) => Ok(read_decimal(text)),
    }
}

/// What a case wants: a value, or a fault behind `!`.
pub fn read_wanted(alloc: Global, text: &str) -> Result<Value, EvalFault> {
    match text {
        "!range" => Err(EvalFault::Range),
        _ => Ok(read_value(alloc, text)?),
    }
}

/// Whether two values are of one kind and written alike.
fn alike(a: ValueRef<'_>, b: ValueRef<'_>) -> bool {
    match (a, b) {
        (ValueRef::Null, ValueRef::Null) => true,
        (ValueRef::Int(x), ValueRef::Int(y)) => x == y,
        (ValueRef::Dec(x), ValueRef::Dec(y)) => x == y,
        (ValueRef::Text(x), ValueRef::Text(y)) => x == y,
        (ValueRef::Bool(x), ValueRef::Bool(y)) => x == y,
        _ => false,
    }
}

pub fn is_wanted(given: &Result<Value, EvalFault>, wanted: &Result<Value, EvalFault>) -> bool {
    match (given, wanted) {
        (Ok(a), Ok(b)) => alike(a.as_value_ref(), b.as_value_ref()),
        (Err(a), Err(b)) => a == b,
        _ => false,
    }
}
