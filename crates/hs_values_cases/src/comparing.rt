// Values in their order, and their keys.
use crate::written::{decimal_in, decimal_text, halves, value_in};
use hs_casetext::{CaseFault, push_line};
use hs_values::{Dec, ValueRef, cmp, order};
use std::alloc::{AllocError, Global};
use std::cmp::Ordering;

fn word_of(found: Ordering) -> &'static str {
    match found {
        Ordering::Less => "less",
        Ordering::Equal => "equal",
        Ordering::Greater => "greater",
    }
}

// Whether two values are of one kind and written alike.
fn alike(a: ValueRef<'_>, b: ValueRef<'_>) -> bool {
    match (a, b) {
        (ValueRef::Null, ValueRef::Null) => true,
        (ValueRef::Int(x), ValueRef::Int(y)) => x == y,
        (ValueRef::Dec(x), ValueRef::Dec(y)) => x == y,
        (ValueRef::Text(x), ValueRef::Text(y)) => x == y,
        (ValueRef::Bool(x), ValueRef::Bool(y)) => x == y,
        (ValueRef::Day(x), ValueRef::Day(y)) => x == y,
        (ValueRef::Micros(x), ValueRef::Micros(y)) => x == y,
        _ => false,
    }
}

// Whether two values have one key.
fn have_one_key(alloc: Global, a: ValueRef<'_>, b: ValueRef<'_>) -> Result<bool, AllocError> {
    let a_key = a.to_value(alloc)?.into_key();
    let b_key = b.to_value(alloc)?.into_key();
    Ok(alike(a_key.as_value_ref(), b_key.as_value_ref()))
}

/// The order of two values and that of the second to the first, what `cmp` says of them, and how many keys they have.
pub fn compare(alloc: Global, text: &str, to: &mut String) -> Result<(), CaseFault> {
    let (left, right) = halves(text)?;
    let a = value_in(left)?;
    let b = value_in(right)?;
    let compared = match cmp(a, b) {
        Some(found) => word_of(found),
        None => "unknown",
    };
    let keys = if have_one_key(alloc, a, b)? {
        "one key"
    } else {
        "two keys"
    };
    let there = word_of(order(a, b));
    let back = word_of(order(b, a));
    let shown = format!(in alloc; "{there}, back {back}, by cmp {compared}, {keys}")?;
    Ok(push_line(to, shown.as_str())?)
}

/// The key of a decimal.
pub fn key(text: &str, to: &mut String) -> Result<(), CaseFault> {
    let key: Dec = decimal_in(text)?.without_trailing_zeros();
    let shown = decimal_text(*to.allocator(), key)?;
    Ok(push_line(to, shown.as_str())?)
}
