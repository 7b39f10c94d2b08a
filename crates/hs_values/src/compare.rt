// The order of values and of rows.
ghost use Rattle.std.specs.Prelude.{◌≡◌, ◌^◌, pos, ◌*ℤ◌, SomeIff, FitsSigned, OnOk, OnErr, map, IsNone, ◌↔◌, ◌⊎◌};
ghost use Rattle.std.specs.Int.{w128};
ghost use Rattle.std.specs.Ordering.{int_cmp};
ghost use Rattle.hs_values.specs.Order.{seen, whole, kind_of, number_cmp, order_of, row_order_of, column_order, keyed_order_of, cmp_of};
ghost use Rattle.hs_values.specs.Decimal.{IsDecimal};
ghost use Rattle.hs_values.specs.Sorted.{keyed_rows, sorted_rows};

use crate::decimal::{MOST_DIGITS, ten_to};
use crate::row::Row;
use crate::value::{Dec, Value, ValueRef};
use std::alloc::AllocError;
use std::cmp::Ordering;

#[tactic(auto, using(crate::proofs::Scales::too_many_noughts))]
/// `units` with so many noughts behind it, where this fits.
fn with_noughts(units: i128, noughts: u8) -> Option<i128>
    ensures { SomeIff result (FitsSigned w128 (units *ℤ pos (10 ^ noughts))) (units *ℤ pos (10 ^ noughts)) }
{
    if units == 0 {
        Some(0)
    } else if noughts > MOST_DIGITS {
        None
    } else {
        units.checked_mul(ten_to(noughts))
    }
}

#[tactic(auto, using(crate::proofs::Scales::ten_positive, crate::proofs::Scales::signs_of_wide))]
/// `a` with so many noughts behind it, compared with `b`.
fn compare_raised(a: i128, noughts: u8, b: i128) -> Ordering
    ensures { result ≡ int_cmp (a *ℤ pos (10 ^ noughts)) b }
{
    match with_noughts(a, noughts) {
        Some(raised) => raised.cmp(&b),
        None => a.cmp(&0),
    }
}

#[tactic(auto, using(crate::proofs::Scales::level_cmp, crate::proofs::Scales::raised_cmp, crate::proofs::Scales::lowered_cmp))]
/// Two decimals as numbers, exactly.
fn compare_numbers(a: Dec, b: Dec) -> Ordering
    ensures { result ≡ number_cmp a b }
{
    if a.scale == b.scale {
        a.units.cmp(&b.units)
    } else if a.scale < b.scale {
        compare_raised(a.units, b.scale - a.scale, b.units)
    } else {
        compare_raised(b.units, a.scale - b.scale, a.units).reverse()
    }
}

/// A whole number as a decimal without digits behind the point.
pub fn whole(n: i64) -> Dec
    ensures value { result ≡ whole n }
    ensures lawful { IsDecimal result }
{
    Dec {
        units: i128::from(n),
        scale: 0,
    }
}

/// Where a kind of value stands among the kinds.
fn kind_of(a: ValueRef<'_>) -> u8
    ensures { result ≡ kind_of (seen a.entry) }
{
    match a {
        ValueRef::Null => 0,
        ValueRef::Int(_) | ValueRef::Dec(_) => 1,
        ValueRef::Text(_) => 2,
        ValueRef::Bool(_) => 3,
        ValueRef::Day(_) => 4,
        ValueRef::Micros(_) => 5,
    }
}

/// The order of all values, in which a list of them is sorted: NULL first, then numbers, texts, truth
/// values, dates and timestamps. Numbers compare as numbers, exactly and at any scales, so that 1 and
/// 1.00 are equal; texts compare by their UTF-8 bytes; FALSE is before TRUE. Takes no memory.
pub fn order(a: ValueRef<'_>, b: ValueRef<'_>) -> Ordering
    ensures { result ≡ order_of (seen a.entry) (seen b.entry) }
{
    match (a, b) {
        (ValueRef::Null, ValueRef::Null) => Ordering::Equal,
        (ValueRef::Int(x), ValueRef::Int(y)) => x.cmp(&y),
        (ValueRef::Int(x), ValueRef::Dec(y)) => compare_numbers(whole(x), y),
        (ValueRef::Dec(x), ValueRef::Int(y)) => compare_numbers(x, whole(y)),
        (ValueRef::Dec(x), ValueRef::Dec(y)) => compare_numbers(x, y),
        (ValueRef::Text(x), ValueRef::Text(y)) => x.cmp(y),
        (ValueRef::Bool(x), ValueRef::Bool(y)) => x.cmp(&y),
        (ValueRef::Day(x), ValueRef::Day(y)) => x.cmp(&y),
        (ValueRef::Micros(x), ValueRef::Micros(y)) => x.cmp(&y),
        _ => kind_of(a).cmp(&kind_of(b)),
    }
}

/// SQL's comparison of two values that may be compared, which are two numbers or two values of one
/// type: None exactly where one of them is NULL. Numbers compare as numbers, exactly and at any
/// scales, texts by their UTF-8 bytes, and FALSE is below TRUE. (Values of two kinds, which SQL
/// doesn't compare, are ordered by kind, as `order` does it.) Takes no memory.
pub fn cmp(a: ValueRef<'_>, b: ValueRef<'_>) -> Option<Ordering>
    ensures value { result ≡ cmp_of (seen a.entry) (seen b.entry) }
    ensures none { IsNone result ↔ ((seen a.entry ≡ Value.Null) ⊎ (seen b.entry ≡ Value.Null)) }
{
    match (a, b) {
        (ValueRef::Null, _) | (_, ValueRef::Null) => None,
        _ => Some(order(a, b)),
    }
}

/// The order of two rows: that of the first column from the left in which they differ, and a row
/// stands before a longer one that begins with it. Takes no memory.
pub fn order_rows(a: &[Value], b: &[Value]) -> Ordering
    ensures { result ≡ row_order_of a.now b.now }
{
    for (x, y) in a.iter().zip(b) {
        match order_values(x, y) {
            Ordering::Equal => {}
            decided => return decided,
        }
    }
    a.len().cmp(&b.len())
}

// The order of two values that are not moved: whole numbers are the common case.
#[inline]
fn order_values(a: &Value, b: &Value) -> Ordering
    ensures { result ≡ order_of a.now b.now }
{
    match (a, b) {
        (Value::Int(x), Value::Int(y)) => x.cmp(y),
        _ => order(a.as_value_ref(), b.as_value_ref()),
    }
}

// The order of two values of a column: descending the other way round, but with NULL first too.
#[inline]
fn order_column(a: &Value, b: &Value, descending: bool) -> Ordering
    ensures { result ≡ column_order descending a.now b.now }
{
    match (a, b) {
        (Value::Null, _) | (_, Value::Null) => order_values(a, b),
        _ if descending => order_values(b, a),
        _ => order_values(a, b),
    }
}

/// The order of two rows with a flag for each of the first columns: that of the first column from the left
/// in which they differ, the other way round where its flag is true, and ascending in the columns behind
/// those with a flag. NULL stands first in every column, also in a descending one. A row stands before a
/// longer one that begins with it. Takes no memory.
pub fn order_rows_by(a: &[Value], b: &[Value], descending: &[bool]) -> Ordering
    ensures { result ≡ keyed_order_of descending.now a.now b.now }
{
    let keys = descending.len().min(a.len()).min(b.len());
    for i in 0..keys {
        match order_column(&a[i], &b[i], descending[i]) {
            Ordering::Equal => {}
            decided => return decided,
        }
    }
    order_rows(&a[keys..], &b[keys..])
}

/// Sorts rows by `order_rows`, ascending; equal rows stay as they stood. Takes memory for more than
/// twenty rows, and after an `Err`, which is want of it, nothing is moved.
pub fn sort_rows(rows: &mut Vec<&Row>) -> Result<(), AllocError>
    ensures ok { OnOk result (map (λ r. r.now) rows.new.items ≡ sorted_rows (map (λ r. r.now) rows.old.items)) }
    ensures err { OnErr result (rows.new.items ≡ rows.old.items) }
{
    sort_rows_by(rows, &[])
}

/// Sorts rows by `order_rows_by`: in the order of their first columns, of which there is a flag for each,
/// descending where it is true, and then of all further columns, ascending. NULL stands first in every
/// column. Equal rows stay as they stood. Takes memory for more than twenty rows, and after an `Err`,
/// which is want of it, nothing is moved.
pub fn sort_rows_by(rows: &mut Vec<&Row>, descending: &[bool]) -> Result<(), AllocError>
    ensures ok { OnOk result (map (λ r. r.now) rows.new.items ≡ keyed_rows descending.now (map (λ r. r.now) rows.old.items)) }
    ensures err { OnErr result (rows.new.items ≡ rows.old.items) }
{
    rows.sort_by(|a, b| order_rows_by(a.as_slice(), b.as_slice(), descending))
}
