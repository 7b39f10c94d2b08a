// Whether two values, or what two texts are read as, are the same.
ghost use Rattle.std.specs.Prelude.{◌≡◌, ◌↔◌, IsTrue};

use hs_plan::Reading;
use hs_values::{SqlType, Value};

pub(crate) fn same_type(a: SqlType, b: SqlType) -> bool
    ensures { IsTrue result ↔ (a ≡ b) }
{
    match (a, b) {
        (SqlType::Small, SqlType::Small) => true,
        (SqlType::Integer, SqlType::Integer) => true,
        (SqlType::Big, SqlType::Big) => true,
        (
            SqlType::Decimal { precision, scale },
            SqlType::Decimal {
                precision: other_precision,
                scale: other_scale,
            },
        ) => precision == other_precision && scale == other_scale,
        (SqlType::Varchar { max }, SqlType::Varchar { max: other }) => max == other,
        (SqlType::Bool, SqlType::Bool) => true,
        (SqlType::Date, SqlType::Date) => true,
        (SqlType::Stamp, SqlType::Stamp) => true,
        _ => false,
    }
}

/// Whether two values are the same, with their scales: 1 and 1.00 are not.
pub(crate) fn same_value(a: &Value, b: &Value) -> bool
    ensures { IsTrue result ↔ (a.now ≡ b.now) }
{
    match (a, b) {
        (Value::Null, Value::Null) => true,
        (Value::Int(n), Value::Int(other)) => n == other,
        (Value::Dec(d), Value::Dec(other)) => d.units == other.units && d.scale == other.scale,
        (Value::Text(text), Value::Text(other)) => text.as_str() == other.as_str(),
        (Value::Bool(holds), Value::Bool(other)) => holds == other,
        (Value::Day(day), Value::Day(other)) => day == other,
        (Value::Micros(micros), Value::Micros(other)) => micros == other,
        _ => false,
    }
}

pub(crate) fn same_reading(a: Reading, b: Reading) -> bool
    ensures { IsTrue result ↔ (a ≡ b) }
{
    match (a, b) {
        (Reading::Day(day), Reading::Day(other)) => day == other,
        (Reading::Micros(micros), Reading::Micros(other)) => micros == other,
        (Reading::BadDate, Reading::BadDate) => true,
        (Reading::BadTimestamp, Reading::BadTimestamp) => true,
        _ => false,
    }
}

/// Whether both are read as the same, or neither is read.
pub(crate) fn same_readings(a: Option<Reading>, b: Option<Reading>) -> bool
    ensures { IsTrue result ↔ (a ≡ b) }
{
    match (a, b) {
        (Some(reading), Some(other)) => same_reading(reading, other),
        (None, None) => true,
        _ => false,
    }
}
