// Dates of the calendar and their day numbers.
ghost use Rattle.std.specs.Prelude.{◌≡◌, ◌≤◌, ◌<◌, pos, MatchOption};
ghost use Rattle.jiff_core.specs.Calendar.{IsCivilDate, days_from_civil};
ghost use Rattle.hs_temporal.specs.Days.{IsDay, year_of, month_of, monthday_of};

use jiff_core::civil::Date;

/// The date of a day number.
pub fn date_of(day: i32) -> Date
    requires { IsDay day }
    ensures year { result.year ≡ pos (year_of day) }
    ensures month { result.month ≡ month_of day }
    ensures day { result.day ≡ monthday_of day }
{
    match Date::from_unix_epoch_day(i64::from(day)) {
        Ok(date) => date,
        Err(_) => unreachable!(),
    }
}

/// The day number of a date from the year 1 on, and `None` where the calendar has no such date.
pub fn day_at(year: u32, month: u32, day: u32) -> Option<i32>
    requires year_in { year < 10_000 }
    requires month_in { month < 100 }
    requires day_in { day < 100 }
    ensures { MatchOption result (1 ≤ year → ¬ (IsCivilDate (pos year) month day))
        (λ found. (1 ≤ year) × IsCivilDate (pos year) month day
        × (found ≡ days_from_civil (pos year) month day)) }
{
    if year == 0 {
        return None;
    }
    match Date::new(year as i16, month as i8, day as i8) {
        Ok(date) => Some(date.to_unix_epoch_day()),
        Err(_) => None,
    }
}
