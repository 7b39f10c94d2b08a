// Groups, the order of an answer, and what is cut from it.
ghost use Rattle.std.specs.Prelude.{◌≡◌, ◌<◌, ◌≤◌, ◌∷◌, length, take, drop, min, IfOk};
ghost use Rattle.hs_values.specs.Sorted.{keyed_rows};
ghost use Rattle.hs_rel.specs.Groups.{same_key, runs_of, grouped, cut_rows};
ghost use Rattle.hs_rel.specs.Outcome.{IsMemoryAlone};

use crate::flags::Flags;
use crate::sorting::{copies, has_same_key, references, sort, sort_by_first};
use crate::stop::EvalStop;
use hs_values::{Row, RowList};
use std::alloc::Global;

/// The rows in the order of their first `keys` columns, NULL first; those that are equal there stay as they
/// stood. So each group, the rows with equal keys, is a run. An `Err` is want of memory.
pub fn group(alloc: Global, rows: &RowList, keys: usize) -> Result<RowList, EvalStop>
    ensures rows { IfOk result (λ answer. answer ≡ grouped keys rows.now) }
    ensures err { IsMemoryAlone result }
{
    let mut order = references(alloc, rows.as_slice())?;
    sort_by_first(&mut order, keys)?;
    Ok(copies(alloc, &order)?)
}

/// How many of grouped rows, from the first on, are of its group: those up to the first row whose first `keys`
/// columns aren't equal to those of the row before it. Of no rows it is 0. Takes no memory.
pub fn first_group(rows: &[Row], keys: usize) -> usize
    ensures within { result ≤ length rows.now }
    ensures some { 0 < length rows.now → 0 < result }
    ensures first { 0 < length rows.now → runs_of (same_key keys) rows.now ≡ take result rows.now ∷ runs_of (same_key keys) (drop result rows.now) }
{
    for end in 1..rows.len() {
        if !has_same_key(&rows[end - 1], &rows[end], keys) {
            return end;
        }
    }
    rows.len()
}

/// The rows in the order of their first columns, of which there is a flag for each, descending where it is
/// true, and then of all further columns, ascending. NULL stands first in every column. An `Err` is want of
/// memory.
pub fn in_order(alloc: Global, rows: &RowList, descending: &Flags) -> Result<RowList, EvalStop>
    ensures rows { IfOk result (λ answer. answer ≡ keyed_rows descending.now rows.now) }
    ensures err { IsMemoryAlone result }
{
    let mut order = references(alloc, rows.as_slice())?;
    sort(&mut order, descending.as_slice())?;
    Ok(copies(alloc, &order)?)
}

/// A number, or the most that it may be.
pub(crate) fn at_most(n: u128, most: usize) -> usize
    ensures { result ≡ min n most }
{
    match usize::try_from(n) {
        Ok(n) => n.min(most),
        Err(_) => most,
    }
}

/// At most `limit` rows, behind the first `offset`. An `Err` is want of memory.
pub fn cut(alloc: Global, rows: &RowList, offset: u128, limit: u128) -> Result<RowList, EvalStop>
    ensures rows { IfOk result (λ answer. answer ≡ cut_rows offset limit rows.now) }
    ensures err { IsMemoryAlone result }
{
    let rows = rows.as_slice();
    let start = at_most(offset, rows.len());
    let end = start + at_most(limit, rows.len() - start);
    let kept = references(alloc, &rows[start..end])?;
    Ok(copies(alloc, &kept)?)
}
