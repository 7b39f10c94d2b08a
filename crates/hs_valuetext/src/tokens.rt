// Values that are no texts, up to the comma or the parenthesis behind them.
ghost use Rattle.std.specs.Prelude.{◌≡◌, ◌≢◌, ◌++◌, ◌∷◌, [], ◌<◌, ◌≤◌, true, false, ℕ, List, length, take, slice_index, MatchOption, IfSome, Some};
ghost use Rattle.std.specs.List.{list_any};
ghost use Rattle.hs_valuetext.specs.Finding.{Knows};
ghost use Rattle.hs_valuetext.specs.Values.{value_text, truth_text, IsDayText, IsMomentText, begins_end, begins_text, is_end, is_text, IsPlainValue, IsToken};
ghost use Rattle.hs_values.specs.declared.value.Value.{Value};

use crate::finding::behind;
use crate::numbers::read_signed;
use hs_decimal::read_printed;
use hs_temporal::{read_date, read_stamp};
use hs_values::{SqlType, Value, fits};

/// Whether a byte stands behind values.
fn is_end(byte: u8) -> bool
    ensures { result ≡ is_end byte }
{
    byte == b',' || byte == b')'
}

/// Whether such a byte is the first.
pub(crate) fn begins_end(text: &str) -> bool
    ensures { result ≡ begins_end text.now }
{
    match text.as_bytes() {
        [byte, ..] => is_end(*byte),
        [] => false,
    }
}

/// Whether the first byte is one with which texts as values begin, and no other values.
pub(crate) fn begins_text(text: &str) -> bool
    ensures { result ≡ begins_text text.now }
{
    match text.as_bytes() {
        [byte, ..] => *byte == b'\'' || *byte == b'U',
        [] => false,
    }
}

/// The bytes before the first of these.
fn token_len(text: &[u8]) -> usize
    ensures within { result ≤ length text.now }
    ensures before { list_any is_end (take result text.now) ≡ false }
    ensures behind { result < length text.now → is_end (slice_index text.now result) ≡ true }
{
    for (i, byte) in text.iter().enumerate() {
        if is_end(*byte) {
            return i;
        }
    }
    text.len()
}

/// What is before the first comma or closing parenthesis, and the rest.
pub(crate) fn token(text: &str) -> (&str, &str)
    ensures { IsToken text.now result.0.now result.1.now }
{
    text.split_at(token_len(text.as_bytes()))
}

/// What is between this front and a quote, which are all of the text.
fn between<'a>(text: &'a str, front: &str) -> Option<&'a str>
    ensures { MatchOption result ((content : List ℕ) → text.now ≢ front.now ++ content ++ 39 ∷ []) (λ content. text.now ≡ front.now ++ content.now ++ 39 ∷ []) }
{
    match behind(text, front) {
        Some(rest) => rest.strip_suffix('\''),
        None => None,
    }
}

/// The day that is written so.
fn read_day(text: &str) -> Option<i32>
    ensures { Knows (λ day. day) (IsDayText text.now) result }
{
    match between(text, "DATE '") {
        Some(date) => read_date(date).ok(),
        None => None,
    }
}

/// The microsecond that is written so, always with six digits behind the point.
fn read_moment(text: &str) -> Option<i64>
    ensures { Knows (λ micros. micros) (IsMomentText text.now) result }
{
    match between(text, "TIMESTAMP '") {
        Some(stamp) => {
            if stamp.len() == 26 {
                read_stamp(stamp).ok()
            } else {
                None
            }
        }
        None => None,
    }
}

/// The truth value that is written so.
fn read_truth(text: &str) -> Option<bool>
    ensures { Knows (λ b. b) (λ b. truth_text b ≡ text.now) result }
{
    if text == "TRUE" {
        Some(true)
    } else if text == "FALSE" {
        Some(false)
    } else {
        None
    }
}

/// The value of a type's own kind that is written so, also one outside the type.
fn likely_value(text: &str, sql_type: &SqlType) -> Option<Value>
    ensures written { IfSome result (λ v. (value_text v ≡ text.now) × (is_text v ≡ false)) }
    ensures found { (v : Value) → IsPlainValue sql_type.now text.now v → v ≢ Value.Null → result ≡ Some v }
{
    match sql_type {
        SqlType::Small | SqlType::Integer | SqlType::Big => match read_signed(text) {
            Some(n) => Some(Value::Int(n)),
            None => None,
        },
        SqlType::Decimal { .. } => match read_printed(text) {
            Some(d) => Some(Value::Dec(d)),
            None => None,
        },
        SqlType::Bool => match read_truth(text) {
            Some(b) => Some(Value::Bool(b)),
            None => None,
        },
        SqlType::Date => match read_day(text) {
            Some(day) => Some(Value::Day(day)),
            None => None,
        },
        SqlType::Stamp => match read_moment(text) {
            Some(micros) => Some(Value::Micros(micros)),
            None => None,
        },
        SqlType::Varchar { .. } => None,
    }
}

/// The value of a type that is written so and is no text.
pub(crate) fn plain_value(text: &str, sql_type: &SqlType) -> Option<Value>
    ensures { Knows (λ v. v) (IsPlainValue sql_type.now text.now) result }
{
    if text == "NULL" {
        return Some(Value::Null);
    }
    let value = likely_value(text, sql_type)?;
    if fits(sql_type, &value) {
        Some(value)
    } else {
        None
    }
}
