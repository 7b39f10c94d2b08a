// Sums of dates with days and months.
ghost use Rattle.std.specs.Prelude.{◌≡◌, IfOk};
ghost use Rattle.hs_temporal.specs.Days.{IsDay};
ghost use Rattle.hs_temporal.specs.Moves.{days_later, months_later};

use crate::calendar::date_of;
use hs_values::EvalFault;
use jiff_span::date::add_months;

// From 0001-01-01 to 9999-12-31 there are fewer months than this.
const MOST_MONTHS: i64 = 200_000;

const FIRST_DAY: i64 = -719_162;

const LAST_DAY: i64 = 2_932_896;

/// The day that many days later, or earlier for a negative number. Days are numbered from
/// 1970-01-01, which is 0, in the Gregorian calendar that ISO 8601 extends to all years. The fault
/// is `Range`, where the sum leaves the years 1 to 9999, for which SQL has dates. It takes no
/// memory.
#[tactic(auto, unfolding(crate::specs::Moves::days_later))]
pub fn plus_days(day: i32, n: i64) -> Result<i32, EvalFault>
    requires { IsDay day }
    ensures value { result ≡ days_later day n }
    ensures range { IfOk result IsDay }
{
    match i64::from(day).checked_add(n) {
        Some(sum) if sum >= FIRST_DAY && sum <= LAST_DAY => Ok(sum as i32),
        _ => Err(EvalFault::Range),
    }
}

/// The day that many months later, or earlier for a negative number: the same day of its month, or
/// the month's last where it is shorter, as 2024-02-29 for 2024-01-31 and one month. Days are
/// numbered from 1970-01-01, which is 0. The fault is `Range`, where the sum leaves the years 1 to
/// 9999, for which SQL has dates. It takes no memory.
pub fn plus_months(day: i32, n: i64) -> Result<i32, EvalFault>
    requires { IsDay day }
    ensures value { result ≡ months_later day n }
    ensures range { IfOk result IsDay }
{
    if n < -MOST_MONTHS || n > MOST_MONTHS {
        return Err(EvalFault::Range);
    }
    match add_months(date_of(day), n as i32) {
        Ok(later) if later.year >= 1 => Ok(later.to_unix_epoch_day()),
        _ => Err(EvalFault::Range),
    }
}
