// The clauses of SELECT, by the outcomes of their expressions.
ghost use Rattle.std.specs.Prelude.{◌≡◌, ◌∷◌, [], IfOk};
ghost use Rattle.hs_answer.specs.Groups.{parted};
ghost use Rattle.hs_places.specs.Picking.{kept_by};
ghost use Rattle.hs_rel.specs.Outcome.{IsMemoryAlone};
ghost use Rattle.hs_values.specs.Outcome.{Gives};
ghost use Rattle.hs_settled.specs.Parts.{grouped_by, kept_over, lines_given};

use crate::columns::all_rows;
use crate::fault::fault_of;
use hs_places::{KeptGroups, Lines, Over, behind_each};
use hs_rel::EvalStop;
use hs_rel::owned::distinct;
use hs_stages::Groups;
use hs_values::{EvalFault, Row, RowList, Value};
use std::alloc::Global;

/// The rows for which a condition is TRUE, or the least of its faults. Else an `Err` is want of memory.
pub fn true_rows(rows: RowList, outcomes: &[Result<Value, EvalFault>]) -> Result<RowList, EvalFault>
    ensures { Gives result (kept_by rows outcomes.now) }
{
    match hs_places::true_rows(rows, outcomes) {
        Ok(rows) => Ok(rows),
        Err(stop) => Err(fault_of(stop)),
    }
}

fn kept_groups(
    groups: KeptGroups,
    outcomes: &[Result<Value, EvalFault>],
) -> Result<KeptGroups, EvalFault>
    ensures { Gives result (kept_by groups outcomes.now) }
{
    match groups.keep(outcomes) {
        Ok(groups) => Ok(groups),
        Err(stop) => Err(fault_of(stop)),
    }
}

/// The rows or groups for which HAVING is TRUE, or the least of its faults. Else an `Err` is want of memory.
pub fn kept(over: Over, outcomes: &[Result<Value, EvalFault>]) -> Result<Over, EvalFault>
    ensures { Gives result (kept_over over outcomes.now) }
{
    match over {
        Over::Rows(rows) => Ok(Over::Rows(true_rows(rows, outcomes)?)),
        Over::Groups(groups) => Ok(Over::Groups(kept_groups(groups, outcomes)?)),
    }
}

fn one_group(alloc: Global, rows: RowList) -> Result<KeptGroups, EvalStop>
    ensures groups { IfOk result (λ groups. groups ≡ rows ∷ []) }
    ensures err { IsMemoryAlone result }
{
    let groups = Groups::one(alloc, rows)?;
    KeptGroups::all(alloc, groups)
}

fn parted(alloc: Global, keyed: RowList, many: usize) -> Result<KeptGroups, EvalStop>
    ensures groups { IfOk result (λ groups. groups ≡ parted many keyed) }
    ensures err { IsMemoryAlone result }
{
    let groups = Groups::parted(alloc, keyed, many)?;
    KeptGroups::all(alloc, groups)
}

/// The groups of rows by the outcomes of `many` keys, one group of all rows without keys, or the rows where nothing is
/// grouped. A fault is the least that a row's keys have. Else an `Err` is want of memory.
pub fn grouped(
    alloc: Global,
    is_grouped: bool,
    many: usize,
    keys: Vec<Result<Row, EvalFault>>,
    rows: RowList,
) -> Result<Over, EvalFault>
    ensures { Gives result (grouped_by is_grouped many keys.items rows) }
{
    if !is_grouped {
        return Ok(Over::Rows(rows));
    }
    if many == 0 {
        return match one_group(alloc, rows) {
            Ok(groups) => Ok(Over::Groups(groups)),
            Err(stop) => Err(fault_of(stop)),
        };
    }
    let given = all_rows(alloc, keys)?;
    let keyed = behind_each(alloc, &given, rows)?;
    match parted(alloc, keyed, many) {
        Ok(groups) => Ok(Over::Groups(groups)),
        Err(stop) => Err(fault_of(stop)),
    }
}

/// The lines of a SELECT: what its items give of each row or group, and of equal rows one where DISTINCT is written. A
/// fault is the least that a row or a group has. Else an `Err` is want of memory.
pub fn lines(
    alloc: Global,
    is_distinct: bool,
    over: Over,
    items: Vec<Result<Row, EvalFault>>,
) -> Result<Lines, EvalFault>
    ensures { Gives result (lines_given is_distinct over items.items) }
{
    let rows = all_rows(alloc, items)?;
    if !is_distinct {
        return Ok(Lines {
            rows,
            over: Some(over),
        });
    }
    match distinct(rows) {
        Ok(rows) => Ok(Lines { rows, over: None }),
        Err(stop) => Err(fault_of(stop)),
    }
}
