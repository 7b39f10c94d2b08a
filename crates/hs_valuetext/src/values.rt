// Values as they are written.
ghost use Rattle.std.specs.Prelude.{◌≡◌, ◌++◌, OnOk, IfOk};
ghost use Rattle.hs_values.specs.Lawful.{IsLawful};
ghost use Rattle.hs_valuetext.specs.Finding.{Finds};
ghost use Rattle.hs_valuetext.specs.Values.{value_text, IsValueAt, IsTextAt};

use crate::texts::{push_chars, read_chars};
use crate::tokens::{begins_end, begins_text, plain_value, token};
use hs_base::NoMemory;
use hs_decimal::print;
use hs_temporal::{print_date, print_stamp};
use hs_values::{Chars, SqlType, Value, fits};
use itoa::Buffer;
use std::alloc::{AllocError, Global};

/// Adds the text of a DATE.
fn push_day(day: i32, out: &mut Chars) -> Result<(), NoMemory>
    requires { IsLawful (Value.Day day) }
    ensures { OnOk result (out.new ≡ out.old ++ value_text (Value.Day day)) }
{
    out.push_text("DATE '")?;
    match print_date(day, out) {
        Ok(()) => Ok(out.push_text("'")?),
        Err(_) => Err(NoMemory),
    }
}

/// Adds the text of a TIMESTAMP.
fn push_moment(micros: i64, out: &mut Chars) -> Result<(), NoMemory>
    requires { IsLawful (Value.Micros micros) }
    ensures { OnOk result (out.new ≡ out.old ++ value_text (Value.Micros micros)) }
{
    out.push_text("TIMESTAMP '")?;
    match print_stamp(micros, out) {
        Ok(()) => Ok(out.push_text("'")?),
        Err(_) => Err(NoMemory),
    }
}

/// Adds a value's text: NULL, TRUE and FALSE; a whole number's digits, behind a `-` where it is below zero; a decimal
/// with as many digits behind its point as its scale says; a text between quotes, behind `U&` and with escapes exactly
/// where it has a control character; DATE and TIMESTAMP with their text between quotes. The value is lawful. An `Err`
/// is want of memory, and then a part of the text may be there.
pub fn print_value(alloc: Global, value: &Value, out: &mut Chars) -> Result<(), NoMemory>
    requires { IsLawful value.now }
    ensures { OnOk result (out.new ≡ out.old ++ value_text value.now) }
{
    match value {
        Value::Null => Ok(out.push_text("NULL")?),
        Value::Int(n) => Ok(out.push_text(Buffer::new().format(*n))?),
        Value::Dec(d) => match print(*d, out) {
            Ok(()) => Ok(()),
            Err(_) => Err(NoMemory),
        },
        Value::Text(text) => Ok(push_chars(alloc, text.as_str(), out)?),
        Value::Bool(true) => Ok(out.push_text("TRUE")?),
        Value::Bool(false) => Ok(out.push_text("FALSE")?),
        Value::Day(day) => push_day(*day, out),
        Value::Micros(micros) => push_moment(*micros, out),
    }
}

/// A text of a VARCHAR, and what is behind it.
fn read_text<'a>(
    alloc: Global,
    text: &'a str,
    sql_type: &SqlType,
) -> Result<Option<(Value, &'a str)>, AllocError>
    ensures { IfOk result (λ found. Finds (λ v. v) (IsTextAt sql_type.now text.now) found) }
{
    match read_chars(alloc, text) {
        Ok(Some((content, rest))) => {
            let value = Value::Text(Chars::from_string(content));
            if fits(sql_type, &value) && begins_end(rest) {
                Ok(Some((value, rest)))
            } else {
                Ok(None)
            }
        }
        Ok(None) => Ok(None),
        Err(error) => Err(error),
    }
}

/// The value of a type with whose text another text begins, where a comma or a closing parenthesis is behind it, and what
/// is behind it. None exactly where there is none: where it is written otherwise, or is no value of the type. There is
/// never more than one. An `Err` is want of memory, which a text alone takes.
pub fn read_value<'a>(
    alloc: Global,
    text: &'a str,
    sql_type: &SqlType,
) -> Result<Option<(Value, &'a str)>, AllocError>
    ensures { IfOk result (λ found. Finds (λ v. v) (IsValueAt sql_type.now text.now) found) }
{
    if begins_text(text) {
        return read_text(alloc, text, sql_type);
    }
    let (token, rest) = token(text);
    match plain_value(token, sql_type) {
        Some(value) => if rest.is_empty() {
            Ok(None)
        } else {
            Ok(Some((value, rest)))
        },
        None => Ok(None),
    }
}
