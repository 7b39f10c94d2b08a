// The list of rows is worked.
ghost use Rattle.std.specs.Prelude.{◌≡◌, ◌≢◌, Ok, Err, IfOk, OnOk, MatchResult};
ghost use Rattle.hs_values.specs.declared.fault.EvalFault.TheVariants as fault;
ghost use Rattle.hs_acting.specs.Kept.{keys_in};
ghost use Rattle.hs_actions.specs.Work as spec;
ghost use Rattle.hs_cascade.specs.Working.{work_of};

use crate::before::RowsBefore;
use crate::taking::take_keys;
use crate::working::Working;
use hs_acting::References;
use hs_base::{NoMemory, RowName};
use hs_values::{EvalFault, Row};
use std::alloc::Global;
use std::collections::BTreeMap;

/// The rows that a statement changes itself, each with its last values or None where it is deleted, with those that the
/// actions of foreign keys change. A row is worked at a time, from the list's front: each foreign key that references its
/// table, in the order of creation, acts on the child rows that named the key that the row had before the statement, once
/// on each, where the row lost the key. Those are put at the list's end. An `Err` is the least fault of the values that
/// children get, or `NoMemory` for want of memory.
pub fn with_actions<B: RowsBefore>(
    alloc: Global,
    before: &B,
    keys: &References,
    edits: BTreeMap<RowName, Option<Row>>,
) -> Result<BTreeMap<RowName, Option<Row>>, EvalFault>
    ensures { MatchResult result (λ all. spec.with_actions (B.maps before.now) (keys_in keys.now) edits.entries ≡ Ok all.entries) (λ e. e ≢ fault.NoMemory → spec.with_actions (B.maps before.now) (keys_in keys.now) edits.entries ≡ Err e) }
{
    match worked(alloc, before, keys, edits) {
        Ok(work) => match work.fault {
            Some(fault) => Err(fault),
            None => Ok(work.edits),
        },
        Err(NoMemory) => Err(EvalFault::NoMemory),
    }
}

// The work of these rows, done.
fn worked<B: RowsBefore>(
    alloc: Global,
    before: &B,
    keys: &References,
    edits: BTreeMap<RowName, Option<Row>>,
) -> Result<Working, NoMemory>
    ensures { IfOk result (λ work. work_of work ≡ spec.worked (B.maps before.now) (keys_in keys.now) (spec.begun edits.entries)) }
{
    let mut work = Working::begun(alloc, edits)?;
    work_all(&mut work, before, alloc, keys)?;
    Ok(work)
}

// All rows of the list are worked.
fn work_all<B: RowsBefore>(
    work: &mut Working,
    before: &B,
    alloc: Global,
    keys: &References,
) -> Result<(), NoMemory>
    ensures { OnOk result (work_of work.new ≡ spec.worked (B.maps before.now) (keys_in keys.now) (work_of work.old)) }
{
    while let Some(name) = work.list.pop_front() {
        take_keys(work, before, alloc, keys.on(name.table), name)?;
    }
    Ok(())
}
