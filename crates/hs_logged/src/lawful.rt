// Whether the values of changes can be written.
ghost use Rattle.std.specs.Prelude.{◌≡◌};
ghost use Rattle.std.specs.List.{list_all};
ghost use Rattle.hs_logged.specs.Writable as spec;

use hs_plan::Change;
use hs_values::{SqlType, Value, fits};

// Whether a value is lawful.
fn is_lawful(value: &Value) -> bool
    ensures { result ≡ spec.is_lawful value.now }
{
    match value {
        Value::Null | Value::Text(_) | Value::Bool(_) => true,
        Value::Int(_) => fits(&SqlType::Big, value),
        Value::Dec(d) => fits(
            &SqlType::Decimal {
                precision: 38,
                scale: d.scale,
            },
            value,
        ),
        Value::Day(_) => fits(&SqlType::Date, value),
        Value::Micros(_) => fits(&SqlType::Stamp, value),
    }
}

fn all_are_lawful(row: &[Value]) -> bool
    ensures { result ≡ list_all spec.is_lawful row.now }
{
    row.iter().all(|value| is_lawful(value))
}

fn has_lawful_values(change: &Change) -> bool
    ensures { result ≡ spec.has_lawful_values change.now }
{
    match change {
        Change::Insert(_, row) => all_are_lawful(row.as_slice()),
        Change::Put(_, _, row) => all_are_lawful(row.as_slice()),
        Change::Delete(_, _) => true,
        Change::Define(_) => true,
    }
}

/// Whether the values of all rows that changes put are lawful. Takes no memory.
pub(crate) fn have_lawful_values(changes: &[Change]) -> bool
    ensures { result ≡ list_all spec.has_lawful_values changes.now }
{
    changes.iter().all(|change| has_lawful_values(change))
}
