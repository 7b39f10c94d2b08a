// Values, readings, types and kinds.
use hs_plan::{Kind, Reading};
use hs_values::{SqlType, Value};
use std::alloc::AllocError;

/// Adds a text between quotes, with each quote in it twice.
pub(crate) fn spell_text(text: &str, out: &mut String) -> Result<(), AllocError> {
    out.push('\'')?;
    for c in text.chars() {
        if c == '\'' {
            out.push('\'')?;
        }
        out.push(c)?;
    }
    out.push('\'')
}

/// Adds a value: a decimal is its units, `e-` and its scale; a date is its day and a timestamp its microseconds, both
/// from 1970-01-01 on.
pub(crate) fn spell_value(value: &Value, out: &mut String) -> Result<(), AllocError> {
    match value {
        Value::Null => out.push_str("NULL"),
        Value::Int(n) => {
            let n = *n;
            write!(out, "{n}")
        }
        Value::Dec(decimal) => {
            let units = decimal.units;
            let scale = decimal.scale;
            write!(out, "{units}e-{scale}")
        }
        Value::Text(text) => spell_text(text.as_str(), out),
        Value::Bool(true) => out.push_str("TRUE"),
        Value::Bool(false) => out.push_str("FALSE"),
        Value::Day(day) => spell_day(*day, out),
        Value::Micros(micros) => spell_micros(*micros, out),
    }
}

fn spell_day(day: i32, out: &mut String) -> Result<(), AllocError> {
    write!(out, "(day {day})")
}

fn spell_micros(micros: i64, out: &mut String) -> Result<(), AllocError> {
    write!(out, "(micros {micros})")
}

/// Adds what a text is read as.
pub(crate) fn spell_reading(reading: Reading, out: &mut String) -> Result<(), AllocError> {
    match reading {
        Reading::Day(day) => spell_day(day, out),
        Reading::Micros(micros) => spell_micros(micros, out),
        Reading::BadDate => out.push_str("bad-date"),
        Reading::BadTimestamp => out.push_str("bad-timestamp"),
    }
}

/// Adds a type as SQL has it.
pub(crate) fn spell_type(sql_type: &SqlType, out: &mut String) -> Result<(), AllocError> {
    match sql_type {
        SqlType::Small => out.push_str("SMALLINT"),
        SqlType::Integer => out.push_str("INTEGER"),
        SqlType::Big => out.push_str("BIGINT"),
        SqlType::Decimal { precision, scale } => {
            let precision = *precision;
            let scale = *scale;
            write!(out, "DECIMAL({precision},{scale})")
        }
        SqlType::Varchar { max } => {
            let max = *max;
            write!(out, "VARCHAR({max})")
        }
        SqlType::Bool => out.push_str("BOOLEAN"),
        SqlType::Date => out.push_str("DATE"),
        SqlType::Stamp => out.push_str("TIMESTAMP"),
    }
}

/// Adds a kind.
pub(crate) fn spell_kind(kind: Kind, out: &mut String) -> Result<(), AllocError> {
    match kind {
        Kind::Null => out.push_str("null"),
        Kind::Whole => out.push_str("whole"),
        Kind::Decimal(scale) => write!(out, "decimal({scale})"),
        Kind::TooWide => out.push_str("too-wide"),
        Kind::Text => out.push_str("text"),
        Kind::Boolean => out.push_str("boolean"),
        Kind::Date => out.push_str("date"),
        Kind::Timestamp => out.push_str("timestamp"),
    }
}

/// Adds the kinds of columns.
pub(crate) fn spell_kinds(kinds: &[Kind], out: &mut String) -> Result<(), AllocError> {
    out.push_str(" (kinds")?;
    for kind in kinds {
        out.push(' ')?;
        spell_kind(*kind, out)?;
    }
    out.push(')')
}
