//! The same calls of rows that are given away: none is copied. Each answers what the call of that name at the
//! crate's root answers.
ghost use Rattle.std.specs.Prelude.{◌≡◌, ◌≤◌, ◌++◌, drop, vec_len, IfOk};
ghost use Rattle.hs_values.specs.Sorted.{keyed_rows};
ghost use Rattle.hs_rel.specs.Bags.{distinct_rows, united, intersected, excepted};
ghost use Rattle.hs_rel.specs.Groups.{grouped, cut_rows};
ghost use Rattle.hs_rel.specs.Outcome.{IsMemoryAlone};

use crate::flags::Flags;
use crate::order::at_most;
use crate::sorting::{keep_among, keep_distinct, sort, sort_by_first};
use crate::stop::EvalStop;
use hs_values::{Row, RowList};
use std::alloc::{AllocError, Global};

/// The rows in the order of their first `keys` columns, those that are equal there as they stood.
pub fn group(rows: RowList, keys: usize) -> Result<RowList, EvalStop>
    ensures rows { IfOk result (λ answer. answer ≡ grouped keys rows) }
    ensures err { IsMemoryAlone result }
{
    let mut order = rows.into_vec();
    sort_by_first(&mut order, keys)?;
    Ok(RowList::from_vec(order))
}

/// The rows in the order of their first columns, by the flags, and then of all further columns.
pub fn in_order(rows: RowList, descending: &Flags) -> Result<RowList, EvalStop>
    ensures rows { IfOk result (λ answer. answer ≡ keyed_rows descending.now rows) }
    ensures err { IsMemoryAlone result }
{
    let mut order = rows.into_vec();
    sort(&mut order, descending.as_slice())?;
    Ok(RowList::from_vec(order))
}

/// One of equal rows each, in ascending order.
pub fn distinct(rows: RowList) -> Result<RowList, EvalStop>
    ensures rows { IfOk result (λ answer. answer ≡ distinct_rows rows) }
    ensures err { IsMemoryAlone result }
{
    let mut kept = rows.into_vec();
    keep_distinct(&mut kept)?;
    Ok(RowList::from_vec(kept))
}

/// The rows of the left side, and behind them those of the right.
fn appended(left: RowList, right: RowList) -> Result<RowList, AllocError>
    ensures { IfOk result (λ both. both ≡ left ++ right) }
{
    let mut both = left.into_vec();
    both.reserve(right.len())?;
    for row in right.into_vec() {
        both.push(row)?;
    }
    Ok(RowList::from_vec(both))
}

/// The rows of both sides, one of equal rows each unless all are wanted.
pub fn union(left: RowList, right: RowList, all: bool) -> Result<RowList, EvalStop>
    ensures rows { IfOk result (λ answer. answer ≡ united all left right) }
    ensures err { IsMemoryAlone result }
{
    let both = appended(left, right)?;
    if all { Ok(both) } else { distinct(both) }
}

/// The left rows that are among the right ones, one of equal rows each, in ascending order.
pub fn intersect(alloc: Global, left: RowList, right: &RowList) -> Result<RowList, EvalStop>
    ensures rows { IfOk result (λ answer. answer ≡ intersected left right.now) }
    ensures err { IsMemoryAlone result }
{
    let mut kept = left.into_vec();
    keep_distinct(&mut kept)?;
    keep_among(alloc, &mut kept, right, true)?;
    Ok(RowList::from_vec(kept))
}

/// The left rows that aren't among the right ones, one of equal rows each, in ascending order.
pub fn except(alloc: Global, left: RowList, right: &RowList) -> Result<RowList, EvalStop>
    ensures rows { IfOk result (λ answer. answer ≡ excepted left right.now) }
    ensures err { IsMemoryAlone result }
{
    let mut kept = left.into_vec();
    keep_distinct(&mut kept)?;
    keep_among(alloc, &mut kept, right, false)?;
    Ok(RowList::from_vec(kept))
}

/// The rows behind the first `n`.
fn without_front(mut rows: Vec<Row>, n: usize) -> Vec<Row>
    requires { n ≤ vec_len rows }
    ensures { result.items ≡ drop n rows.items }
{
    rows.drain(..n);
    rows
}

/// At most `limit` rows, behind the first `offset`. Takes no memory.
pub fn cut(rows: RowList, offset: u128, limit: u128) -> RowList
    ensures { result ≡ cut_rows offset limit rows }
{
    let mut kept = rows.into_vec();
    let start = at_most(offset, kept.len());
    kept.truncate(start + at_most(limit, kept.len() - start));
    RowList::from_vec(without_front(kept, start))
}
