// Dates and timestamps that are read, printed, moved and taken apart.
ghost use Rattle.std.specs.Prelude.{IfOk};
ghost use Rattle.hs_temporal.specs.Days.{IsDay, IsMicros};

use crate::written::{halves, word_of};
use hs_casetext::{CaseFault, push_line};
use hs_temporal::{
    Part, extract, plus_days, plus_months, print_date, print_stamp, read_date, read_stamp,
};
use hs_values::{Chars, EvalFault};
use std::alloc::Global;

fn push_number(to: &mut String, answer: Result<i64, EvalFault>) -> Result<(), CaseFault> {
    match answer {
        Ok(number) => {
            let text = format!(in *to.allocator(); "{number}")?;
            Ok(push_line(to, text.as_str())?)
        }
        Err(fault) => Ok(push_line(to, word_of(fault)?)?),
    }
}

fn push_day(to: &mut String, answer: Result<i32, EvalFault>) -> Result<(), CaseFault> {
    match answer {
        Ok(day) => push_number(to, Ok(i64::from(day))),
        Err(fault) => push_number(to, Err(fault)),
    }
}

// A day of the years 1 to 9999.
fn day_in(text: &str) -> Result<i32, CaseFault>
    ensures { IfOk result IsDay }
{
    let day = text.parse::<i32>()?;
    if day >= -719_162 && day <= 2_932_896 {
        Ok(day)
    } else {
        Err(CaseFault::Unreadable)
    }
}

// Microseconds of those years.
fn micros_in(text: &str) -> Result<i64, CaseFault>
    ensures { IfOk result IsMicros }
{
    let micros = text.parse::<i64>()?;
    if micros >= -62_135_596_800_000_000 && micros <= 253_402_300_799_999_999 {
        Ok(micros)
    } else {
        Err(CaseFault::Unreadable)
    }
}

/// The number of a date's or a timestamp's text.
pub fn read_one(kind: &str, text: &str, to: &mut String) -> Result<(), CaseFault> {
    match kind {
        "date" => push_day(to, read_date(text)),
        _ => push_number(to, read_stamp(text)),
    }
}

/// The day so many days or months later.
pub fn move_one(kind: &str, text: &str, to: &mut String) -> Result<(), CaseFault> {
    let (day, count) = halves(text)?;
    let day = day_in(day)?;
    let count = count.parse::<i64>()?;
    let moved = match kind {
        "days" => plus_days(day, count),
        _ => plus_months(day, count),
    };
    push_day(to, moved)
}

/// The text of a day, behind `=`.
pub fn print_day(alloc: Global, text: &str, to: &mut String) -> Result<(), CaseFault> {
    let mut out = Chars::from_text(alloc, "=")?;
    match print_date(day_in(text)?, &mut out) {
        Ok(()) => Ok(push_line(to, out.as_str())?),
        Err(fault) => Ok(push_line(to, word_of(fault)?)?),
    }
}

/// The text of a timestamp, behind `=`.
pub fn print_moment(alloc: Global, text: &str, to: &mut String) -> Result<(), CaseFault> {
    let mut out = Chars::from_text(alloc, "=")?;
    match print_stamp(micros_in(text)?, &mut out) {
        Ok(()) => Ok(push_line(to, out.as_str())?),
        Err(fault) => Ok(push_line(to, word_of(fault)?)?),
    }
}

/// A part of a timestamp.
pub fn extract_one(kind: &str, text: &str, to: &mut String) -> Result<(), CaseFault> {
    let part = match kind {
        "year" => Part::Year,
        "month" => Part::Month,
        "day" => Part::Day,
        "hour" => Part::Hour,
        "minute" => Part::Minute,
        _ => Part::Second,
    };
    push_number(to, Ok(extract(part, micros_in(text)?)))
}
