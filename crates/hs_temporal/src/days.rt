// A timestamp as its day and its time of day.
ghost use Rattle.std.specs.Prelude.{◌≡◌, ◌<◌, pos};
ghost use Rattle.hs_temporal.specs.Days.{IsDay, IsMicros, day_of, time_of, moment_at, day_micros};

use crate::parts::DAY;

/// The day in which a timestamp lies, and the microseconds that have passed since its beginning, below
/// 86,400,000,000: the inverse of [`moment_at`]. The timestamp is given in microseconds since the beginning
/// of 1970-01-01, and days are numbered from there. It takes no memory.
pub fn day_and_time(micros: i64) -> (i32, u64)
    requires { IsMicros micros }
    ensures day { result.0 ≡ day_of micros }
    ensures time { result.1 ≡ time_of micros }
    ensures day_in { IsDay result.0 }
    ensures time_in { result.1 < day_micros }
    ensures back { moment_at result.0 result.1 ≡ micros }
{
    (micros.div_euclid(DAY) as i32, micros.rem_euclid(DAY) as u64)
}

/// The timestamp so many microseconds after the beginning of a day, which are below 86,400,000,000. At 0 it
/// is the date as a timestamp. It takes no memory.
pub fn moment_at(day: i32, time: u64) -> i64
    requires day_in { IsDay day }
    requires time_in { time < day_micros }
    ensures value { result ≡ moment_at day time }
    ensures in_range { IsMicros result }
    ensures day { day_of result ≡ day }
    ensures time { time_of result ≡ time }
{
    i64::from(day) * DAY + time as i64
}
