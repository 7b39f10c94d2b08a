// A foreign key acts on child rows.
ghost use Rattle.std.specs.Prelude.{◌≡◌, [], map, fold, OnOk};
ghost use Rattle.std.specs.Option.{unwrap_or};
ghost use Rattle.hs_values.specs.Outcome.{Gives};
ghost use Rattle.hs_actions.specs.Acting as rule;
ghost use Rattle.hs_actions.specs.Work as spec;
ghost use Rattle.hs_cascade.specs.Working.{work_of};

use crate::before::RowsBefore;
use crate::working::Working;
use hs_acting::effect;
use hs_actions::Reference;
use hs_base::{NoMemory, RowName, RowNo};
use hs_values::{EvalFault, Row};
use std::alloc::Global;

/// A foreign key acts on each of these child rows, the parent's row being this now. An `Err` is want of memory.
pub(crate) fn act_on_all<B: RowsBefore>(
    work: &mut Working,
    before: &B,
    alloc: Global,
    key: &Reference,
    new: &Option<Row>,
    rows: &[RowNo],
) -> Result<(), NoMemory>
    ensures { OnOk result (work_of work.new ≡ fold (spec.act (B.maps before.now) key.now new.now) (work_of work.old) (map (λ r. r.0) rows.now)) }
{
    for row in rows {
        act(work, before, alloc, key, new, *row)?;
    }
    Ok(())
}

// It acts on a child row.
#[tactic(auto, using(crate::proofs::Acts::left_out, crate::proofs::Acts::acts))]
fn act<B: RowsBefore>(
    work: &mut Working,
    before: &B,
    alloc: Global,
    key: &Reference,
    new: &Option<Row>,
    row: RowNo,
) -> Result<(), NoMemory>
    ensures { OnOk result (work_of work.new ≡ spec.act (B.maps before.now) key.now new.now (work_of work.old) row.0) }
{
    if work.is_left_out(key, row) {
        return Ok(());
    }
    let name = RowName {
        table: key.child,
        row,
    };
    let made = effect_on(work, before, alloc, key, new, name);
    work.mark(key.place, row)?;
    work.settle(name, made)
}

// What becomes of a child row.
fn effect_on<B: RowsBefore>(
    work: &Working,
    before: &B,
    alloc: Global,
    key: &Reference,
    new: &Option<Row>,
    name: RowName,
) -> Result<Option<Row>, EvalFault>
    ensures { Gives result (rule.effect key.now new.now (unwrap_or (spec.is_now (B.maps before.now) work.now.edits.entries name) [])) }
{
    match work.now(before, name) {
        Some(row) => effect(alloc, key, new.as_ref(), row),
        None => effect(alloc, key, new.as_ref(), &Row::new(alloc)),
    }
}
