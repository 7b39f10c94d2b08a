// Groups of rows.
ghost use Rattle.std.specs.Prelude.{◌≡◌, ◌<◌, ◌≤◌, ◌-◌, ◌∷◌, [], Some, IsTrue, length, take, drop, slice_get, vec_len, IfOk};
ghost use Rattle.hs_rel.specs.Groups.{runs_of, same_key};
ghost use Rattle.hs_rel.specs.Outcome.{IsMemoryAlone};
ghost use Rattle.hs_answer.specs.Groups.{parted};
ghost use Rattle.hs_stages.specs.Parts.{are_ends, begin, parts_from};

use crate::order::without_keys;
use hs_rel::owned::group;
use hs_rel::{EvalStop, first_group};
use hs_values::{Row, RowList};
use std::alloc::Global;
use std::marker::Model;

/// Rows in groups. Contracts see the list of the groups, each with its rows.
#[derive(Drop)]
pub struct Groups {
    rows: Vec<Row>,
    /// Where each group ends in the rows.
    ends: Vec<usize>,
    ghost in_rows: { IsTrue (are_ends 0 ends.items (vec_len rows)) },
}

impl Model for Groups {
    ghost use Rattle.std.specs.Prelude.{List};
    ghost use Rattle.hs_values.specs.declared.value.Value.{Value as SqlValue};
    ghost use Rattle.hs_stages.specs.Parts.{parts_from};

    ghost Value = { List (List (List SqlValue)) };

    ghost view = { λ g. parts_from 0 g.ends.items g.rows.items };
}

/// A part of rows.
fn part(rows: &[Row], start: usize, end: usize) -> &[Row]
    requires low { start ≤ end }
    requires high { end ≤ length rows.now }
    ensures { result.now ≡ take (end - start) (drop start rows.now) }
{
    &rows[start..end]
}

/// Where a part begins: where the one before it ends.
fn begin(ends: &[usize], at: usize) -> usize
    requires { at < length ends.now }
    ensures { result ≡ begin 0 ends.now at }
{
    if at == 0 {
        return 0;
    }
    ends[at - 1]
}

/// Where each run of rows with equal first columns ends.
fn group_ends(alloc: Global, sorted: &[Row], keys: usize) -> Result<Vec<usize>, EvalStop>
    ensures parts { IfOk result (λ ends. parts_from 0 ends.items sorted.now ≡ runs_of (same_key keys) sorted.now) }
    ensures in_rows { IfOk result (λ ends. IsTrue (are_ends 0 ends.items (length sorted.now))) }
    ensures err { IsMemoryAlone result }
{
    let mut ends = Vec::new(alloc);
    let mut start = 0;
    while start < sorted.len() {
        start += first_group(&sorted[start..], keys);
        ends.push(start)?;
    }
    Ok(ends)
}

impl Groups {
    /// How many groups there are. Takes no memory.
    pub fn len(&self) -> usize
        ensures { result ≡ length self.now }
    {
        self.ends.len()
    }

    /// The rows of a group, counted from 0. Takes no memory.
    pub fn group(&self, at: usize) -> &[Row]
        requires { at < length self.now }
        ensures { slice_get self.now at ≡ Some result.now }
    {
        part(&self.rows, begin(&self.ends, at), self.ends[at])
    }

    /// All rows as one group, also where there are none. An `Err` is want of memory.
    pub fn one(alloc: Global, rows: RowList) -> Result<Groups, EvalStop>
        ensures groups { IfOk result (λ groups. groups ≡ rows ∷ []) }
        ensures err { IsMemoryAlone result }
    {
        let rows = rows.into_vec();
        let mut ends = Vec::new(alloc);
        ends.push(rows.len())?;
        Ok(Groups { rows, ends })
    }

    /// The groups of rows that are equal in their first `keys` columns, in the order of these, NULL first. The keys are taken
    /// off, and the rows of a group stand as they stood. An `Err` is want of memory.
    pub fn parted(alloc: Global, keyed: RowList, keys: usize) -> Result<Groups, EvalStop>
        ensures groups { IfOk result (λ groups. groups ≡ parted keys keyed) }
        ensures err { IsMemoryAlone result }
    {
        let sorted = group(keyed, keys)?;
        let ends = group_ends(alloc, sorted.as_slice(), keys)?;
        let rows = without_keys(sorted, keys)?.into_vec();
        Ok(Groups { rows, ends })
    }
}
