// Parts of dates and timestamps, and intervals.
ghost use Rattle.std.specs.Prelude.{◌≡◌, IfOk};
ghost use Rattle.hs_values.specs.Order.{seen};
ghost use Rattle.hs_temporal.specs.Days.{IsDay, IsMicros};
ghost use Rattle.hs_expression.specs.Moments as spec;

use hs_ast::{DateField, IntervalUnit, Sign};
use hs_temporal::{Part, day_and_time, extract, moment_at, plus_days, plus_months};
use hs_values::{EvalFault, SqlType, Value, ValueRef};

/// The day, if it is of the years 1 to 9999.
#[tactic(auto, using(crate::proofs::Years::days_within))]
pub(crate) fn lawful_day(day: i32) -> Result<i32, EvalFault>
    ensures value { result ≡ spec.lawful_day day }
    ensures lawful { IfOk result IsDay }
{
    if ValueRef::Day(day).fits(&SqlType::Date) {
        Ok(day)
    } else {
        Err(EvalFault::Range)
    }
}

/// The time, if it is of the years 1 to 9999.
#[tactic(auto, using(crate::proofs::Years::moments_within))]
pub(crate) fn lawful_moment(micros: i64) -> Result<i64, EvalFault>
    ensures value { result ≡ spec.lawful_moment micros }
    ensures lawful { IfOk result IsMicros }
{
    if ValueRef::Micros(micros).fits(&SqlType::Stamp) {
        Ok(micros)
    } else {
        Err(EvalFault::Range)
    }
}

fn part_named(field: DateField) -> Part
    ensures { result ≡ spec.part_named field }
{
    match field {
        DateField::Year => Part::Year,
        DateField::Month => Part::Month,
        DateField::Day => Part::Day,
        DateField::Hour => Part::Hour,
        DateField::Minute => Part::Minute,
        DateField::Second => Part::Second,
    }
}

/// EXTRACT, of a date at its beginning.
pub(crate) fn extracted_value(field: DateField, a: ValueRef<'_>) -> Result<Value, EvalFault>
    ensures { result ≡ spec.extracted_value field (seen a.entry) }
{
    match a {
        ValueRef::Day(day) => {
            let start = moment_at(lawful_day(day)?, 0);
            Ok(Value::Int(extract(part_named(field), start)))
        }
        ValueRef::Micros(micros) => {
            let micros = lawful_moment(micros)?;
            Ok(Value::Int(extract(part_named(field), micros)))
        }
        _ => Ok(Value::Null),
    }
}

/// How many days or months an interval is.
#[tactic(auto, using(crate::proofs::Wholes::too_wide, crate::proofs::Wholes::narrow))]
fn signed_count(sign: Sign, count: u64) -> Result<i64, EvalFault>
    ensures { result ≡ spec.signed_count sign count }
{
    let signed = match sign {
        Sign::Plus => i128::from(count),
        Sign::Minus => -i128::from(count),
    };
    match i64::try_from(signed) {
        Ok(n) => Ok(n),
        Err(_) => Err(EvalFault::Range),
    }
}

fn later_day(unit: IntervalUnit, day: i32, n: i64) -> Result<i32, EvalFault>
    requires { IsDay day }
    ensures value { result ≡ spec.later_day unit day n }
    ensures lawful { IfOk result IsDay }
{
    match unit {
        IntervalUnit::Day => plus_days(day, n),
        IntervalUnit::Month => plus_months(day, n),
    }
}

/// A date or a timestamp so many days or months later or, with a minus, earlier. The time of day stays.
pub(crate) fn moved_value(
    sign: Sign,
    count: u64,
    unit: IntervalUnit,
    a: ValueRef<'_>,
) -> Result<Value, EvalFault>
    ensures { result ≡ spec.moved_value sign count unit (seen a.entry) }
{
    match a {
        ValueRef::Day(day) => {
            let day = lawful_day(day)?;
            let n = signed_count(sign, count)?;
            Ok(Value::Day(later_day(unit, day, n)?))
        }
        ValueRef::Micros(micros) => {
            let micros = lawful_moment(micros)?;
            let n = signed_count(sign, count)?;
            let (day, time) = day_and_time(micros);
            Ok(Value::Micros(moment_at(later_day(unit, day, n)?, time)))
        }
        _ => Ok(Value::Null),
    }
}
