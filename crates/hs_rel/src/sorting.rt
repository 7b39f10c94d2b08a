// Rows, or references to them, in order.
ghost use Rattle.std.specs.Prelude.{◌≡◌, ◌++◌, List, map, filter, take, IfOk, OnOk};
ghost use Rattle.std.specs.List.Sorted.{IsSorted};
ghost use Rattle.hs_values.specs.declared.value.Value.{Value};
ghost use Rattle.hs_values.specs.Order.{row_order_of};
ghost use Rattle.hs_values.specs.Sorted.{keyed_rows};
ghost use Rattle.hs_rel.specs.Bags.{same_row, is_among, is_wanted, distinct_rows};
ghost use Rattle.hs_rel.specs.Groups.{same_key, grouped};

use hs_values::{Row, RowList, Value, order_rows, order_rows_by};
use std::alloc::{AllocError, Global};
use std::cmp::Ordering;

/// A row, or a reference to one.
pub(crate) trait AsRow: Drop {
    /// The values of the row.
    ghost shown: { Self → List Value };

    fn as_row(&self) -> &Row
        ensures { result.now ≡ shown self.now };
}

impl AsRow for Row {
    ghost shown = { λ row. row };

    fn as_row(&self) -> &Row {
        self
    }
}

impl AsRow for &Row {
    ghost shown = { λ row. row.now };

    fn as_row(&self) -> &Row {
        self
    }
}

/// A reference to each row.
pub(crate) fn references<'a>(alloc: Global, rows: &'a [Row]) -> Result<Vec<&'a Row>, AllocError>
    ensures { IfOk result (λ all. map (λ row. row.now) all.items ≡ rows.now) }
{
    rows.iter().collect(alloc)
}

/// A reference to each row of both sides.
pub(crate) fn both_references<'a>(
    alloc: Global,
    left: &'a [Row],
    right: &'a [Row],
) -> Result<Vec<&'a Row>, AllocError>
    ensures { IfOk result (λ all. map (λ row. row.now) all.items ≡ left.now ++ right.now) }
{
    let mut all = references(alloc, left)?;
    all.reserve(right.len())?;
    for row in right {
        all.push(row)?;
    }
    Ok(all)
}

/// A copy of each row.
pub(crate) fn copies(alloc: Global, rows: &[&Row]) -> Result<RowList, AllocError>
    ensures { IfOk result (λ copied. copied ≡ map (λ row. row.now) rows.now) }
{
    let mut copied = Vec::with_capacity(alloc, rows.len())?;
    for row in rows {
        copied.push(row.copy()?)?;
    }
    Ok(RowList::from_vec(copied))
}

/// Sorts by keys, of which there is a flag for each, and then by all further columns.
pub(crate) fn sort<T: AsRow>(rows: &mut Vec<T>, descending: &[bool]) -> Result<(), AllocError>
    ensures { OnOk result (map T.shown rows.new.items ≡ keyed_rows descending.now (map T.shown rows.old.items)) }
{
    rows.sort_by(|a, b| { order_rows_by(a.as_row().as_slice(), b.as_row().as_slice(), descending) })
}

/// The first columns of a row.
fn first_columns(row: &Row, keys: usize) -> &[Value]
    ensures { result.now ≡ take keys row.now }
{
    let values = row.as_slice();
    if keys < values.len() {
        &values[..keys]
    } else {
        values
    }
}

/// Whether two rows have equal first columns.
pub(crate) fn has_same_key(a: &Row, b: &Row, keys: usize) -> bool
    ensures { result ≡ same_key keys a.now b.now }
{
    order_rows(first_columns(a, keys), first_columns(b, keys)) == Ordering::Equal
}

/// Sorts by the first columns alone.
pub(crate) fn sort_by_first<T: AsRow>(rows: &mut Vec<T>, keys: usize) -> Result<(), AllocError>
    ensures { OnOk result (map T.shown rows.new.items ≡ grouped keys (map T.shown rows.old.items)) }
{
    rows.sort_by(|a, b| order_rows(
        first_columns(a.as_row(), keys),
        first_columns(b.as_row(), keys),
    ))
}

/// Whether two rows are equal.
fn is_same(a: &Row, b: &Row) -> bool
    ensures { result ≡ same_row a.now b.now }
{
    order_rows(a.as_slice(), b.as_slice()) == Ordering::Equal
}

/// Sorts, and keeps the first of equal rows.
pub(crate) fn keep_distinct<T: AsRow>(rows: &mut Vec<T>) -> Result<(), AllocError>
    ensures { OnOk result (map T.shown rows.new.items ≡ distinct_rows (map T.shown rows.old.items)) }
{
    sort(rows, &[])?;
    rows.dedup_by(|a, b| is_same(a.as_row(), b.as_row()));
    Ok(())
}

/// Whether a row is among sorted rows.
fn is_among(sorted: &[&Row], row: &Row) -> bool
    ensures { IsSorted row_order_of (map (λ r. r.now) sorted.now) → result ≡ is_among (map (λ r. r.now) sorted.now) row.now }
{
    sorted
        .binary_search_by(|other| order_rows(other.as_slice(), row.as_slice()))
        .is_ok()
}

/// Whether a row is among sorted rows, or whether it isn't.
fn is_wanted(sorted: &[&Row], row: &Row, among: bool) -> bool
    ensures { IsSorted row_order_of (map (λ r. r.now) sorted.now) → result ≡ is_wanted among (map (λ r. r.now) sorted.now) row.now }
{
    let found = is_among(sorted, row);
    if among { found } else { !found }
}

/// Keeps the rows that are among others, or else those that aren't.
pub(crate) fn keep_among<T: AsRow>(
    alloc: Global,
    rows: &mut Vec<T>,
    others: &RowList,
    among: bool,
) -> Result<(), AllocError>
    ensures { OnOk result (map T.shown rows.new.items ≡ filter (is_wanted among others.now) (map T.shown rows.old.items)) }
{
    let mut sorted = references(alloc, others.as_slice())?;
    sort(&mut sorted, &[])?;
    rows.retain(|row| is_wanted(&sorted, row.as_row(), among));
    Ok(())
}
