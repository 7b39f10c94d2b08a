// Functions of texts.
ghost use Rattle.std.specs.Prelude.{◌≡◌, ◌∷◌, [], Ok, MatchOption};
ghost use Rattle.std.specs.Str.{chars};
ghost use Rattle.hs_scalar.specs.Positions.{substring_of};
ghost use Rattle.hs_scalar.specs.Trimming.{trim_of};
ghost use Rattle.hs_values.specs.Order.{seen};
ghost use Rattle.hs_values.specs.Outcome.{Gives};
ghost use Rattle.hs_expression.specs.Texts as spec;

use hs_ast::TrimForm;
use hs_scalar::{Side, char_length, concat, like, lower, substring, trim, upper};
use hs_values::{Chars, EvalFault, Value, ValueRef};
use std::alloc::Global;

/// UPPER.
pub(crate) fn upper_value(alloc: Global, a: ValueRef<'_>) -> Result<Value, EvalFault>
    ensures { Gives result (Ok (spec.upper_value (seen a.entry))) }
{
    match a {
        ValueRef::Text(text) => Ok(Value::Text(upper(alloc, text)?)),
        _ => Ok(Value::Null),
    }
}

/// LOWER.
pub(crate) fn lower_value(alloc: Global, a: ValueRef<'_>) -> Result<Value, EvalFault>
    ensures { Gives result (Ok (spec.lower_value (seen a.entry))) }
{
    match a {
        ValueRef::Text(text) => Ok(Value::Text(lower(alloc, text)?)),
        _ => Ok(Value::Null),
    }
}

/// CHAR_LENGTH.
pub(crate) fn length_value(a: ValueRef<'_>) -> Value
    ensures { result ≡ spec.length_value (seen a.entry) }
{
    match a {
        ValueRef::Text(text) => Value::Int(char_length(text)),
        _ => Value::Null,
    }
}

/// `||`
pub(crate) fn concatenation(
    alloc: Global,
    a: ValueRef<'_>,
    b: ValueRef<'_>,
) -> Result<Value, EvalFault>
    ensures { Gives result (Ok (spec.concatenation (seen a.entry) (seen b.entry))) }
{
    match (a, b) {
        (ValueRef::Text(a), ValueRef::Text(b)) => Ok(Value::Text(concat(alloc, a, b)?)),
        _ => Ok(Value::Null),
    }
}

fn side_of(form: TrimForm) -> Side
    ensures { result ≡ spec.side_of form }
{
    match form {
        TrimForm::Bare | TrimForm::From | TrimForm::Both => Side::Both,
        TrimForm::Leading => Side::Leading,
        TrimForm::Trailing => Side::Trailing,
    }
}

/// A copy of a text without the character at a side.
fn trimmed(alloc: Global, text: &str, form: TrimForm, c: char) -> Result<Value, EvalFault>
    ensures { Gives result (Ok (Value.Text (trim_of text.now (spec.side_of form) c))) }
{
    Ok(Value::Text(Chars::from_text(alloc, trim(text, side_of(form), c))?))
}

/// TRIM of spaces.
pub(crate) fn trimmed_value(
    alloc: Global,
    form: TrimForm,
    a: ValueRef<'_>,
) -> Result<Value, EvalFault>
    ensures { Gives result (Ok (spec.trimmed_value form (seen a.entry))) }
{
    match a {
        ValueRef::Text(text) => trimmed(alloc, text, form, ' '),
        _ => Ok(Value::Null),
    }
}

/// The first character of a text, and what follows it.
fn split_first(text: &str) -> Option<(char, &str)>
    ensures { MatchOption result (chars text.now ≡ []) (λ parts. chars text.now ≡ parts.0 ∷ chars parts.1.now) }
{
    let mut rest = text.chars();
    match rest.next() {
        Some(first) => Some((first, rest.as_str())),
        None => None,
    }
}

/// The character of a text that has just one.
fn only_character(text: &str) -> Result<char, EvalFault>
    ensures { result ≡ spec.only_character (chars text.now) }
{
    match split_first(text) {
        None => Err(EvalFault::TooLong),
        Some((c, rest)) => match split_first(rest) {
            None => Ok(c),
            Some(_) => Err(EvalFault::TooLong),
        },
    }
}

/// TRIM of a character.
pub(crate) fn trimmed_of_value(
    alloc: Global,
    form: TrimForm,
    character: ValueRef<'_>,
    a: ValueRef<'_>,
) -> Result<Value, EvalFault>
    ensures { Gives result (spec.trimmed_of_value form (seen character.entry) (seen a.entry)) }
{
    match (character, a) {
        (ValueRef::Text(character), ValueRef::Text(text)) => {
            trimmed(alloc, text, form, only_character(character)?)
        }
        _ => Ok(Value::Null),
    }
}

/// LIKE, or NOT LIKE.
pub(crate) fn like_value(
    negated: bool,
    escape: Option<char>,
    a: ValueRef<'_>,
    pattern: ValueRef<'_>,
) -> Value
    ensures { result ≡ spec.like_value negated escape (seen a.entry) (seen pattern.entry) }
{
    match (a, pattern) {
        (ValueRef::Text(text), ValueRef::Text(pattern)) => {
            Value::Bool(like(text, pattern, escape) != negated)
        }
        _ => Value::Null,
    }
}

/// A copy of a part of a text.
fn part(alloc: Global, text: &str, first: i64, count: Option<i64>) -> Result<Value, EvalFault>
    ensures { Gives result (Ok (Value.Text (substring_of text.now first count))) }
{
    Ok(Value::Text(Chars::from_text(alloc, substring(text, first, count))?))
}

/// SUBSTRING from a place on.
pub(crate) fn substring_value(
    alloc: Global,
    a: ValueRef<'_>,
    first: ValueRef<'_>,
) -> Result<Value, EvalFault>
    ensures { Gives result (Ok (spec.substring_value (seen a.entry) (seen first.entry))) }
{
    match (a, first) {
        (ValueRef::Text(text), ValueRef::Int(first)) => part(alloc, text, first, None),
        _ => Ok(Value::Null),
    }
}

/// SUBSTRING of so many characters.
pub(crate) fn substring_for_value(
    alloc: Global,
    a: ValueRef<'_>,
    first: ValueRef<'_>,
    count: ValueRef<'_>,
) -> Result<Value, EvalFault>
    ensures { Gives result (Ok (spec.substring_for_value (seen a.entry) (seen first.entry) (seen count.entry))) }
{
    match (a, first, count) {
        (ValueRef::Text(text), ValueRef::Int(first), ValueRef::Int(count)) => {
            part(alloc, text, first, Some(count))
        }
        _ => Ok(Value::Null),
    }
}
