// Rows that can be printed.
ghost use Rattle.std.specs.Prelude.{◌≡◌, true};
ghost use Rattle.std.specs.List.{All, list_all};
ghost use Rattle.hs_values.specs.Lawful.{IsLawful};
ghost use Rattle.hs_outcome.specs.Lawful as spec;

use hs_values::{SqlType, Value, fits};

// The type of which a value is, where it is lawful.
fn own_type(value: &Value) -> SqlType
    ensures { result ≡ spec.own_type value.now }
{
    match value {
        Value::Dec(d) => SqlType::Decimal {
            precision: 38,
            scale: d.scale,
        },
        Value::Day(_) => SqlType::Date,
        Value::Micros(_) => SqlType::Stamp,
        _ => SqlType::Big,
    }
}

fn is_lawful(value: &Value) -> bool
    ensures { result ≡ spec.is_lawful value.now }
{
    match value {
        Value::Text(_) => true,
        Value::Bool(_) => true,
        _ => fits(&own_type(value), value),
    }
}

fn all_are_lawful(row: &[Value]) -> bool
    ensures { result ≡ list_all spec.is_lawful row.now }
{
    row.iter().all(|value| is_lawful(value))
}

/// Whether each value of a row is lawful, so that it can be printed: a decimal has at most 38 digits and a scale of
/// at most 38, and a date or a timestamp is of the years 1 to 9999. Takes no memory.
pub fn are_lawful(row: &[Value]) -> bool
    ensures { result ≡ true → All IsLawful row.now }
{
    all_are_lawful(row)
}
