// Dates and timestamps that a text names.
ghost use Rattle.std.specs.Prelude.{◌≡◌, ◌≢◌, ◌+◌, ◌*◌, ◌+ℤ◌, ◌*ℤ◌, pos, ◌++◌, ◌∷◌, [], ◌≤◌, ◌<◌, ◌^◌, ℕ, ℤ, codes, length, MatchOption, MatchResult};
ghost use Rattle.hs_temporal.specs.Days.{IsDay, IsMicros};
ghost use Rattle.hs_temporal.specs.Texts.{date_text, stamp_text, clock_text, fields, digits, fraction, filled};
ghost use Rattle.hs_temporal.specs.Reading.{date_in, stamp_in};

use crate::calendar::day_at;
use crate::parts::DAY;
use hs_values::EvalFault;

/// The day whose text this is: `YYYY-MM-DD`, ten bytes, of a day of the years 0001 to 9999 that
/// the Gregorian calendar has. This is the text of SQL's DATE literal (ISO/IEC 9075-2, `<date
/// value>`) in full width. Days are numbered from 1970-01-01, which is 0. The fault is `BadDate`,
/// where no day has this text. Reading is the inverse of printing. It takes no memory.
pub fn read_date(text: &str) -> Result<i32, EvalFault>
    ensures value { result ≡ date_in text.now }
    ensures inverse { MatchResult result (λ day. IsDay day × (date_text day ≡ text.now))
        (λ _. (day : ℤ) → IsDay day → date_text day ≢ text.now) }
{
    day_in(text.as_bytes()).ok_or(EvalFault::BadDate)
}

/// The timestamp whose text this is: a date, one space, and `HH:MM:SS` with an optional point and
/// one to six digits behind it, which are filled up with zeros to six. This is the text of SQL's
/// TIMESTAMP literal (ISO/IEC 9075-2, `<timestamp string>`) without time zone and leap second. The
/// answer is in microseconds since the beginning of 1970-01-01. The fault is `BadDate`, where no
/// timestamp has this text, as at hour 24, at second 60, or at a point without digits. It takes no
/// memory.
pub fn read_stamp(text: &str) -> Result<i64, EvalFault>
    ensures value { result ≡ stamp_in text.now }
    ensures inverse { MatchResult result
        (λ micros. IsMicros micros × (stamp_text micros ≡ filled text.now))
        (λ _. (micros : ℤ) → IsMicros micros → stamp_text micros ≢ filled text.now) }
{
    micros_in(text.as_bytes()).ok_or(EvalFault::BadDate)
}

fn day_in(text: &[u8]) -> Option<i32>
    ensures { MatchOption result ((day : ℤ) → IsDay day → date_text day ≢ text.now)
        (λ day. IsDay day × (date_text day ≡ text.now)) }
{
    let (year, month, day) = fields_in(text, 4, b'-')?;
    day_at(year, month, day)
}

fn micros_in(text: &[u8]) -> Option<i64>
    ensures { MatchOption result
        ((micros : ℤ) → IsMicros micros → stamp_text micros ≢ filled text.now)
        (λ micros. IsMicros micros × (stamp_text micros ≡ filled text.now)) }
{
    if text.len() < 19 || text[10] != b' ' {
        return None;
    }
    let day = day_in(&text[..10])?;
    let seconds = seconds_in(&text[11..19])?;
    let fraction = fraction_in(&text[19..])?;
    Some(micros_at(day, seconds, fraction))
}

// The time so many seconds and microseconds after the beginning of a day.
fn micros_at(day: i32, second: u32, fraction: u32) -> i64
    requires day_in { IsDay day }
    requires second_in { second < 86_400 }
    requires fraction_in { fraction < 1_000_000 }
    ensures { result ≡ day *ℤ pos 86_400_000_000 +ℤ pos (second * 1_000_000 + fraction) }
{
    let time = u64::from(second) * 1_000_000 + u64::from(fraction);
    i64::from(day) * DAY + time as i64
}

// The seconds since the beginning of the day, of a text `HH:MM:SS`.
fn seconds_in(text: &[u8]) -> Option<u32>
    ensures { MatchOption result ((second : ℕ) → second < 86_400 → clock_text second ≢ text.now)
        (λ second. (second < 86_400) × (clock_text second ≡ text.now)) }
{
    let (hour, minute, second) = fields_in(text, 2, b':')?;
    if hour > 23 || minute > 59 || second > 59 {
        return None;
    }
    Some(hour * 3600 + minute * 60 + second)
}

// The microseconds of a fraction, which is nothing, or a point with one to six digits.
fn fraction_in(text: &[u8]) -> Option<u32>
    ensures { MatchOption result
        ((n : ℕ) → n < 1_000_000 → codes "." ++ digits 6 n ≢ fraction text.now)
        (λ n. (n < 1_000_000) × (codes "." ++ digits 6 n ≡ fraction text.now)) }
{
    if text.is_empty() {
        return Some(0);
    }
    if text[0] != b'.' || text.len() < 2 || text.len() > 7 {
        return None;
    }
    let digits = number_in(&text[1..])?;
    Some(digits * 10_u32.pow(7 - text.len() as u32))
}

// Three numbers with a byte between them, the first in so many digits and the others in two.
fn fields_in(text: &[u8], places: usize, between: u8) -> Option<(u32, u32, u32)>
    requires { places ≤ 4 }
    ensures { MatchOption result
        ((a b c : ℕ) → fields places (between ∷ []) a b c ≢ text.now)
        (λ f. (f.0 < 10 ^ places) × (f.1 < 100) × (f.2 < 100)
        × (fields places (between ∷ []) f.0 f.1 f.2 ≡ text.now)) }
{
    if text.len() != places + 6 || text[places] != between || text[places + 3] != between {
        return None;
    }
    let first = number_in(&text[..places])?;
    let second = number_in(&text[places + 1..places + 3])?;
    let third = number_in(&text[places + 4..])?;
    Some((first, second, third))
}

// The number that decimal digits write, and `None` where a byte is no digit.
fn number_in(text: &[u8]) -> Option<u32>
    requires { length text.now ≤ 6 }
    ensures { MatchOption result ((n : ℕ) → digits (length text.now) n ≢ text.now)
        (λ n. (n < 10 ^ length text.now) × (digits (length text.now) n ≡ text.now)) }
{
    let mut number = 0;
    for byte in text {
        if !byte.is_ascii_digit() {
            return None;
        }
        number = number * 10 + u32::from(*byte - b'0');
    }
    Some(number)
}
