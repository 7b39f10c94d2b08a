// Values as a case writes them.
ghost use Rattle.std.specs.Prelude.{IfOk};
ghost use Rattle.hs_values.specs.Decimal.{IsDecimal};

use hs_casetext::CaseFault;
use hs_values::{Dec, EvalFault, SqlType, ValueRef, checked_decimal};
use std::alloc::{AllocError, Global};

/// The words of a fault.
pub fn word_of(fault: EvalFault) -> Result<&'static str, CaseFault> {
    match fault {
        EvalFault::DivisionByZero => Ok("division by zero"),
        EvalFault::Range => Ok("range"),
        EvalFault::TooLong => Ok("too long"),
        EvalFault::BadDate => Ok("bad date"),
        EvalFault::MoreThanOne => Ok("more than one"),
        EvalFault::NoMemory => Err(CaseFault::NoMemory),
    }
}

/// What stands before the next space and what stands behind it.
pub fn halves(text: &str) -> Result<(&str, &str), CaseFault> {
    text.split_once(' ').ok_or(CaseFault::Unreadable)
}

/// A decimal, as its units, `e-` and its scale.
pub fn decimal_in(text: &str) -> Result<Dec, CaseFault>
    ensures { IfOk result IsDecimal }
{
    let (units, scale) = text.split_once("e-").ok_or(CaseFault::Unreadable)?;
    let units = units.parse::<i128>()?;
    let scale = scale.parse::<u8>()?;
    match checked_decimal(units, scale) {
        Ok(decimal) => Ok(decimal),
        Err(_) => Err(CaseFault::Unreadable),
    }
}

/// The text of a decimal, as `decimal_in` reads it.
pub fn decimal_text(alloc: Global, decimal: Dec) -> Result<String, AllocError> {
    let units = decimal.units;
    let scale = decimal.scale;
    format!(in alloc; "{units}e-{scale}")
}

/// A value: `NULL`, `TRUE`, `FALSE`, a text in quotes, a day behind `d`, microseconds behind `m`, a decimal or a whole number.
pub fn value_in(text: &str) -> Result<ValueRef<'_>, CaseFault> {
    match text {
        "NULL" => return Ok(ValueRef::Null),
        "TRUE" => return Ok(ValueRef::Bool(true)),
        "FALSE" => return Ok(ValueRef::Bool(false)),
        _ => {}
    }
    if let Some(text) = text.strip_prefix('\'') {
        let inside = text.strip_suffix('\'').ok_or(CaseFault::Unreadable)?;
        return Ok(ValueRef::Text(inside));
    }
    if let Some(day) = text.strip_prefix('d') {
        return Ok(ValueRef::Day(day.parse::<i32>()?));
    }
    if let Some(micros) = text.strip_prefix('m') {
        return Ok(ValueRef::Micros(micros.parse::<i64>()?));
    }
    if text.contains('e') {
        return Ok(ValueRef::Dec(decimal_in(text)?));
    }
    Ok(ValueRef::Int(text.parse::<i64>()?))
}

/// The text of a value, as `value_in` reads it.
pub fn value_text(alloc: Global, value: ValueRef<'_>) -> Result<String, AllocError> {
    match value {
        ValueRef::Null => String::from_str(alloc, "NULL"),
        ValueRef::Int(n) => format!(in alloc; "{n}"),
        ValueRef::Dec(decimal) => decimal_text(alloc, decimal),
        ValueRef::Text(text) => format!(in alloc; "'{text}'"),
        ValueRef::Bool(true) => String::from_str(alloc, "TRUE"),
        ValueRef::Bool(false) => String::from_str(alloc, "FALSE"),
        ValueRef::Day(day) => format!(in alloc; "d{day}"),
        ValueRef::Micros(micros) => format!(in alloc; "m{micros}"),
    }
}

/// A type by its SQL name, `DECIMAL(5,2)` and `VARCHAR(3)` among them.
pub fn type_in(text: &str) -> Result<SqlType, CaseFault> {
    match text {
        "SMALLINT" => return Ok(SqlType::Small),
        "INTEGER" => return Ok(SqlType::Integer),
        "BIGINT" => return Ok(SqlType::Big),
        "BOOLEAN" => return Ok(SqlType::Bool),
        "DATE" => return Ok(SqlType::Date),
        "TIMESTAMP" => return Ok(SqlType::Stamp),
        _ => {}
    }
    let (word, numbers) = text.split_once('(').ok_or(CaseFault::Unreadable)?;
    let numbers = numbers.strip_suffix(')').ok_or(CaseFault::Unreadable)?;
    match (word, numbers.split_once(',')) {
        ("DECIMAL", Some((precision, scale))) => Ok(SqlType::Decimal {
            precision: precision.parse::<u8>()?,
            scale: scale.parse::<u8>()?,
        }),
        ("VARCHAR", None) => Ok(SqlType::Varchar {
            max: numbers.parse::<u16>()?,
        }),
        _ => Err(CaseFault::Unreadable),
    }
}
