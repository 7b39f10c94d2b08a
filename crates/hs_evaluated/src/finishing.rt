// What a statement comes to, once it is known which constraint its changes violate first.
ghost use Rattle.std.specs.Prelude.{◌≡◌, [], IfOk, if◌then◌else◌};
ghost use Rattle.hs_claims.specs.declared.footprint.Footprint.{Footprint as TheFootprint};
ghost use Rattle.hs_turns.specs.Database.{Database};
ghost use Rattle.hs_language.specs.Reading.{Reading};
ghost use Rattle.hs_outcome.specs.Given.{changes_in, finished, foot_of};
ghost use Rattle.hs_plan.specs.declared.plan.Plan.{Plan as ThePlan};
ghost use Rattle.hs_seams.specs.Stores.{outcome_of};

use crate::telling::{lines, reply};
use hs_base::NoMemory;
use hs_claims::Footprint;
use hs_outcome::{Given, answered_rows};
use hs_plan::{Change, Changes};
use hs_schema::Catalog;
use hs_seams::Outcome;
use hs_sentences::Violation;
use std::alloc::Global;

/// The changes that a statement makes which gives this: only a changing one has some.
pub(crate) fn changes_of(given: &Given) -> &[Change]
    ensures { result.now ≡ changes_in given.now }
{
    match given {
        Given::Changes(changes, _) => changes.as_slice(),
        Given::Rows(_) => &[],
        Given::Locked => &[],
        Given::Nothing => &[],
        Given::Fault(_) => &[],
    }
}

// The same, taken out of it.
fn own_changes(alloc: Global, given: Given) -> Changes
    ensures { result ≡ changes_in given }
{
    match given {
        Given::Changes(changes, _) => changes,
        Given::Rows(_) => Changes::new(alloc),
        Given::Locked => Changes::new(alloc),
        Given::Nothing => Changes::new(alloc),
        Given::Fault(_) => Changes::new(alloc),
    }
}

// Its changes, where they are kept.
fn kept_changes(alloc: Global, is_kept: bool, given: Given) -> Changes
    ensures { result ≡ (if is_kept then changes_in given else []) }
{
    if is_kept {
        return own_changes(alloc, given);
    }
    Changes::new(alloc)
}

/// What a statement comes to that gives this and touches this, where this is the first constraint that its changes
/// violate, and they are kept or not.
pub(crate) fn outcome(
    alloc: Global,
    cat: &Catalog,
    violation: &Option<Violation>,
    is_kept: bool,
    given: Given,
    foot: Footprint,
) -> Result<Outcome, NoMemory>
    ensures outcome { ((f : TheFootprint) → (finished violation.now cat.now given f).changes ≡ (if is_kept then changes_in given else [])) → (r : Reading) (db : Database) (plan : ThePlan) → foot ≡ foot_of r db plan given → IfOk result (λ o. outcome_of o ≡ finished violation.now cat.now given foot) }
    ensures changes { IfOk result (λ o. o.changes ≡ (if is_kept then changes_in given else [])) }
{
    let rows = lines(alloc, answered_rows(&given))?;
    let reply = reply(alloc, cat, violation, &given)?;
    Ok(Outcome {
        rows,
        reply,
        changes: kept_changes(alloc, is_kept, given),
        foot,
    })
}
