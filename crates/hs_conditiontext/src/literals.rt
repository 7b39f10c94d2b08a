// Literals and columns in conditions.
ghost use Rattle.std.specs.Prelude.{◌≡◌, ◌++◌, OnOk, encode_utf8};
ghost use Rattle.hs_conditiontext.specs.Conditions as spec;
ghost use Rattle.hs_conditiontext.specs.Operators.{moment_text};
ghost use Rattle.hs_valuetext.specs.Texts.{chars_text};

use hs_base::NoMemory;
use hs_nametext::print_name;
use hs_plan::Column;
use hs_values::{Chars, SqlType, Value, fits};
use hs_valuetext::print_value;
use std::alloc::Global;

/// Whether a value can be written: a whole number has 64 bits, a decimal at most 38 digits, a date or a timestamp is of the years 1
/// to 9999.
fn is_value(value: &Value) -> bool
    ensures { result ≡ spec.is_value value.now }
{
    match value {
        Value::Int(_) => fits(&SqlType::Big, value),
        Value::Dec(d) => {
            let sql_type = SqlType::Decimal {
                precision: 38,
                scale: d.scale,
            };
            fits(&sql_type, value)
        }
        Value::Day(_) => fits(&SqlType::Date, value),
        Value::Micros(_) => fits(&SqlType::Stamp, value),
        Value::Null | Value::Bool(_) | Value::Text(_) => true,
    }
}

/// Adds a literal's text, or nothing where its value can't be written.
#[tactic(auto, using(crate::proofs::ValueLemmas::lawful_value))]
pub(crate) fn push_literal(alloc: Global, value: &Value, out: &mut Chars) -> Result<(), NoMemory>
    ensures { OnOk result (out.new ≡ out.old ++ spec.literal_text value.now) }
{
    if is_value(value) {
        print_value(alloc, value, out)
    } else {
        Ok(())
    }
}

/// Adds a text as a literal.
fn push_owned(alloc: Global, text: Chars, out: &mut Chars) -> Result<(), NoMemory>
    ensures { OnOk result (out.new ≡ out.old ++ chars_text text) }
{
    let value = Value::Text(text);
    print_value(alloc, &value, out)
}

/// Adds a text as a literal.
pub(crate) fn push_chars(alloc: Global, text: &Chars, out: &mut Chars) -> Result<(), NoMemory>
    ensures { OnOk result (out.new ≡ out.old ++ chars_text text.now) }
{
    push_owned(alloc, text.copy()?, out)
}

/// Adds a text of one character as a literal.
pub(crate) fn push_character(alloc: Global, c: char, out: &mut Chars) -> Result<(), NoMemory>
    ensures { OnOk result (out.new ≡ out.old ++ chars_text (encode_utf8 c)) }
{
    let mut text = Chars::new(alloc);
    text.push(c)?;
    push_owned(alloc, text, out)
}

/// Adds DATE or TIMESTAMP with a text that is none.
pub(crate) fn push_bad_moment(
    alloc: Global,
    timestamp: bool,
    text: &Chars,
    out: &mut Chars,
) -> Result<(), NoMemory>
    ensures { OnOk result (out.new ≡ out.old ++ (moment_text timestamp ++ chars_text text.now)) }
{
    out.push_text(if timestamp { "TIMESTAMP " } else { "DATE " })?;
    push_chars(alloc, text, out)
}

/// Adds the name of the column at a place, or the empty name where there is none.
pub(crate) fn push_column(at: u32, columns: &[Column], out: &mut Chars) -> Result<(), NoMemory>
    ensures { OnOk result (out.new ≡ out.old ++ spec.column_text columns.now at) }
{
    match columns.get(at as usize) {
        Some(column) => print_name(column.name.as_str(), out),
        None => print_name("", out),
    }
}
