// The texts of dates and timestamps.
ghost use Rattle.std.specs.Prelude.{◌≡◌, ◌++◌, ◌+◌, ◌%◌, ◌<◌, OnOk, IfErr};
ghost use Rattle.std.specs.Str.{IsAscii};
ghost use Rattle.hs_values.specs.declared.fault.EvalFault.TheVariants.{NoMemory};
ghost use Rattle.hs_temporal.specs.Days.{IsDay, IsMicros};
ghost use Rattle.hs_temporal.specs.Texts.{date_text, stamp_text, time_text};

use crate::calendar::date_of;
use crate::parts::DAY;
use hs_values::{Chars, EvalFault};

/// Adds the text of a date at the end, `YYYY-MM-DD`. Days are numbered from 1970-01-01, which is
/// 0. The only fault is `NoMemory`, and then the text is as it was.
pub fn print_date(day: i32, out: &mut Chars) -> Result<(), EvalFault>
    requires { IsDay day }
    ensures ok { OnOk result (out.new ≡ out.old ++ date_text day) }
    ensures err { IfErr result (λ fault. (fault ≡ NoMemory) × (out.new ≡ out.old)) }
{
    push_ascii(&date_bytes(day), out)
}

/// Adds the text of a timestamp at the end, `YYYY-MM-DD HH:MM:SS.ffffff`, always with six digits
/// behind the point. The timestamp is given in microseconds since the beginning of 1970-01-01. The
/// only fault is `NoMemory`, and then the text is as it was.
pub fn print_stamp(micros: i64, out: &mut Chars) -> Result<(), EvalFault>
    requires { IsMicros micros }
    ensures ok { OnOk result (out.new ≡ out.old ++ stamp_text micros) }
    ensures err { IfErr result (λ fault. (fault ≡ NoMemory) × (out.new ≡ out.old)) }
{
    push_ascii(&stamp_bytes(micros), out)
}

fn push_ascii(text: &[u8], out: &mut Chars) -> Result<(), EvalFault>
    requires { IsAscii text.now }
    ensures ok { OnOk result (out.new ≡ out.old ++ text.now) }
    ensures err { IfErr result (λ fault. (fault ≡ NoMemory) × (out.new ≡ out.old)) }
{
    match str::from_utf8(text) {
        Ok(text) => Ok(out.push_text(text)?),
        Err(_) => unreachable!(),
    }
}

fn stamp_bytes(micros: i64) -> [u8; 26]
    requires { IsMicros micros }
    ensures { result ≡ stamp_text micros }
{
    let mut text = [b' '; 26];
    text[..10].copy_from_slice(&date_bytes(micros.div_euclid(DAY) as i32));
    text[11..].copy_from_slice(&time_bytes(micros.rem_euclid(DAY) as u64));
    text
}

fn date_bytes(day: i32) -> [u8; 10]
    requires { IsDay day }
    ensures { result ≡ date_text day }
{
    let date = date_of(day);
    let year = date.year as u64;
    let month = u64::from(date.month);
    let day = u64::from(date.day);
    [
        digit(year / 1000),
        digit(year / 100),
        digit(year / 10),
        digit(year),
        b'-',
        digit(month / 10),
        digit(month),
        b'-',
        digit(day / 10),
        digit(day),
    ]
}

// The time of day that many microseconds after its beginning.
fn time_bytes(time: u64) -> [u8; 15]
    requires { time < 86_400_000_000 }
    ensures { result ≡ time_text time }
{
    let second = time / 1_000_000;
    let minute = second / 60;
    let hour = minute / 60;
    [
        digit(hour / 10),
        digit(hour),
        b':',
        digit(minute % 60 / 10),
        digit(minute % 60),
        b':',
        digit(second % 60 / 10),
        digit(second % 60),
        b'.',
        digit(time / 100_000),
        digit(time / 10_000),
        digit(time / 1000),
        digit(time / 100),
        digit(time / 10),
        digit(time),
    ]
}

// The last decimal digit of a number.
fn digit(n: u64) -> u8
    ensures { result ≡ 48 + n % 10 }
{
    b'0' + (n % 10) as u8
}
