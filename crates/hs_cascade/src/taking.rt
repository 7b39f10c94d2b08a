// The foreign keys are taken that reference the table of a changed row.
ghost use Rattle.std.specs.Prelude.{◌≡◌, map, fold, IfOk, OnOk};
ghost use Rattle.std.specs.Option.{option_copied, option_map_or};
ghost use Rattle.hs_actions.specs.Work as spec;
ghost use Rattle.hs_cascade.specs.Working.{work_of};

use crate::acting::act_on_all;
use crate::before::RowsBefore;
use crate::working::Working;
use hs_acting::acts_at;
use hs_actions::Reference;
use hs_base::{NoMemory, RowName, RowNos};
use hs_index::key_in;
use hs_values::Row;
use std::alloc::Global;

/// Each of these foreign keys is taken for a row. An `Err` is want of memory.
pub(crate) fn take_keys<B: RowsBefore>(
    work: &mut Working,
    before: &B,
    alloc: Global,
    keys: &[Reference],
    name: RowName,
) -> Result<(), NoMemory>
    ensures { OnOk result (work_of work.new ≡ option_map_or (λ old. fold (spec.take_key (B.maps before.now) name old) (work_of work.old) keys.now) (spec.was (B.maps before.now) name) (work_of work.old)) }
{
    match before.row(name) {
        Some(old) => take_each(work, before, alloc, keys, name, old),
        None => Ok(()),
    }
}

// Each is taken for a row that had these values before the statement.
fn take_each<B: RowsBefore>(
    work: &mut Working,
    before: &B,
    alloc: Global,
    keys: &[Reference],
    name: RowName,
    old: &Row,
) -> Result<(), NoMemory>
    ensures { OnOk result (work_of work.new ≡ fold (spec.take_key (B.maps before.now) name old.now) (work_of work.old) keys.now) }
{
    for key in keys {
        take_key(work, before, alloc, key, name, old)?;
    }
    Ok(())
}

#[tactic(auto, using(crate::proofs::Acts::idle, crate::proofs::Acts::taken))]
fn take_key<B: RowsBefore>(
    work: &mut Working,
    before: &B,
    alloc: Global,
    key: &Reference,
    name: RowName,
    old: &Row,
) -> Result<(), NoMemory>
    ensures { OnOk result (work_of work.new ≡ spec.take_key (B.maps before.now) name old.now (work_of work.old) key.now) }
{
    if !acts_at(key, old.as_slice(), work.now(before, name)) {
        return Ok(());
    }
    let new = copied(work.now(before, name))?;
    let children = children_of(before, alloc, key, old)?;
    act_on_all(work, before, alloc, key, &new, children.as_slice())
}

// The child rows that named the key that a row had.
fn children_of<B: RowsBefore>(
    before: &B,
    alloc: Global,
    key: &Reference,
    old: &Row,
) -> Result<RowNos, NoMemory>
    ensures { IfOk result (λ found. map (λ r. r.0) found ≡ spec.children_of (B.maps before.now) key.now old.now) }
{
    let lost = key_in(alloc, key.parent_columns.as_slice(), old.as_slice())?;
    before.rows_with(key.child, key.columns.as_slice(), &lost)
}

fn copied(row: Option<&Row>) -> Result<Option<Row>, NoMemory>
    ensures { IfOk result (λ copied. copied ≡ option_copied row.entry) }
{
    match row {
        Some(row) => Ok(Some(row.copy()?)),
        None => Ok(None),
    }
}
