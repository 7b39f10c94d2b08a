// SQL values.
ghost use Rattle.std.specs.Prelude.{◌≡◌, IfOk};
ghost use Rattle.hs_values.specs.Order.{seen};

use crate::chars::Chars;
use std::alloc::{AllocError, Global};

/// A decimal number: `units / 10^scale`. The calls of this engine's crates take and give at most
/// 38 digits of units and a scale of at most 38.
#[derive(Clone, Copy, Debug, PartialEq, Eq)]
pub struct Dec {
    pub units: i128,
    pub scale: u8,
}

/// A value of a column.
#[derive(Debug, Drop)]
pub enum Value {
    /// SQL's NULL, which every type has.
    Null,
    /// A SMALLINT, an INTEGER or a BIGINT: all are reckoned at 64 bits.
    Int(i64),
    /// A DECIMAL.
    Dec(Dec),
    /// A VARCHAR.
    Text(Chars),
    /// A BOOLEAN.
    Bool(bool),
    /// A DATE, as the number of its day: 0 is 1970-01-01 of the proleptic Gregorian calendar.
    Day(i32),
    /// A TIMESTAMP, as the microseconds since the beginning of 1970-01-01, without a time zone.
    Micros(i64),
}

/// A value whose text is borrowed.
#[derive(Clone, Copy, Debug)]
pub enum ValueRef<'a> {
    /// SQL's NULL.
    Null,
    /// A SMALLINT, an INTEGER or a BIGINT.
    Int(i64),
    /// A DECIMAL.
    Dec(Dec),
    /// A VARCHAR.
    Text(&'a str),
    /// A BOOLEAN.
    Bool(bool),
    /// A DATE, as the number of its day.
    Day(i32),
    /// A TIMESTAMP, in microseconds.
    Micros(i64),
}

impl Value {
    /// The same value, its text borrowed from this one.
    pub fn as_value_ref(&self) -> ValueRef<'_>
        ensures { seen result ≡ self.now }
    {
        match self {
            Value::Null => ValueRef::Null,
            Value::Int(n) => ValueRef::Int(*n),
            Value::Dec(d) => ValueRef::Dec(*d),
            Value::Text(t) => ValueRef::Text(t.as_str()),
            Value::Bool(b) => ValueRef::Bool(*b),
            Value::Day(d) => ValueRef::Day(*d),
            Value::Micros(m) => ValueRef::Micros(*m),
        }
    }

    /// The same value in memory of its own, of which a text alone takes some. An `Err` is want of it.
    pub fn copy(&self) -> Result<Value, AllocError>
        ensures { IfOk result (λ copied. copied ≡ self.now) }
    {
        match self {
            Value::Null => Ok(Value::Null),
            Value::Int(n) => Ok(Value::Int(*n)),
            Value::Dec(d) => Ok(Value::Dec(*d)),
            Value::Text(t) => Ok(Value::Text(t.copy()?)),
            Value::Bool(b) => Ok(Value::Bool(*b)),
            Value::Day(d) => Ok(Value::Day(*d)),
            Value::Micros(m) => Ok(Value::Micros(*m)),
        }
    }
}

impl ValueRef<'_> {
    /// The same value, its text copied, which alone takes memory. An `Err` is want of it.
    pub fn to_value(self, alloc: Global) -> Result<Value, AllocError>
        ensures { IfOk result (λ copied. copied ≡ seen self.entry) }
    {
        match self {
            ValueRef::Null => Ok(Value::Null),
            ValueRef::Int(n) => Ok(Value::Int(n)),
            ValueRef::Dec(d) => Ok(Value::Dec(d)),
            ValueRef::Text(t) => Ok(Value::Text(Chars::from_text(alloc, t)?)),
            ValueRef::Bool(b) => Ok(Value::Bool(b)),
            ValueRef::Day(d) => Ok(Value::Day(d)),
            ValueRef::Micros(m) => Ok(Value::Micros(m)),
        }
    }
}
