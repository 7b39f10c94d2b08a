// The parts of a timestamp.
ghost use Rattle.std.specs.Prelude.{◌≡◌};
ghost use Rattle.hs_temporal.specs.Days.{IsMicros};
ghost use Rattle.hs_temporal.specs.Parts.{part_of};

use crate::calendar::date_of;

/// The microseconds of a day, which has 24 hours and no leap second.
pub const DAY: i64 = 86_400_000_000;

/// A part of a timestamp that SQL's EXTRACT names.
#[derive(Clone, Copy, Debug, PartialEq, Eq)]
pub enum Part {
    Year,
    Month,
    Day,
    Hour,
    Minute,
    Second,
}

/// A part of a timestamp, as SQL's EXTRACT gives it. The timestamp is given in microseconds since
/// the beginning of 1970-01-01. The year is 1 to 9999, the month 1 to 12, the day 1 to 31, the hour
/// 0 to 23, and minute and second 0 to 59. What is below the part is left out, so that the second
/// is the whole second that has begun, also before 1970. It takes no memory.
#[tactic(auto, unfolding(crate::specs::Parts::part_of))]
pub fn extract(part: Part, micros: i64) -> i64
    requires { IsMicros micros }
    ensures { result ≡ part_of part micros }
{
    let day = micros.div_euclid(DAY) as i32;
    let time = micros.rem_euclid(DAY);
    match part {
        Part::Year => i64::from(date_of(day).year),
        Part::Month => i64::from(date_of(day).month),
        Part::Day => i64::from(date_of(day).day),
        Part::Hour => time / 3_600_000_000,
        Part::Minute => time / 60_000_000 % 60,
        Part::Second => time / 1_000_000 % 60,
    }
}
