// What a statement gives, and what it touches.
ghost use Rattle.std.specs.Prelude.{◌≡◌, ℕ, IfOk};
ghost use Rattle.hs_acting.specs.Kept.{keys_in};
ghost use Rattle.hs_turns.specs.Database.{Database};
ghost use Rattle.hs_draft.specs.Drafted.{after};
ghost use Rattle.hs_language.specs.Outcomes.{of_plan};
ghost use Rattle.hs_language.specs.Reading.{Reading, TellsTables};
ghost use Rattle.hs_outcome.specs.Given.{foot_of, outcome_of};
ghost use Rattle.hs_outcome.specs.Same.{ListsAscending};
ghost use Rattle.hs_references.specs.Referenced.{AreOf};

use hs_acting::References;
use hs_base::{NoMemory, Steps};
use hs_claims::Footprint;
use hs_draft::Draft;
use hs_held::RowsInDraft;
use hs_outcome::{Given, give, touched};
use hs_plan::Plan;
use hs_schema::Catalog;
use hs_seated::DraftRows;
use std::alloc::Global;

// ---- what it gives

// Looks at rows.
struct Looks;

/// What a statement gives over the rows of a draft. They are only looked at, and those that an UPDATE or a DELETE changes
/// are taken from where they lie.
pub(crate) fn given(
    alloc: Global,
    cat: &Catalog,
    keys: &References,
    draft: &Draft,
    plan: &Plan,
) -> Result<Given, NoMemory>
    ensures { AreOf cat.now (keys_in keys.now) → (r : Reading) (inserted : ℕ) (db : Database) → db.things ≡ cat.now → db.rows ≡ after draft.now → IfOk result (λ given. of_plan r inserted db plan.now ≡ outcome_of r inserted db plan.now given) }
{
    let before = RowsInDraft { draft };
    let mut rows = DraftRows::new(draft);
    let mut steps: Steps<Looks> = Steps::new();
    match give(alloc, cat, keys, &mut rows, &before, plan, &mut steps) {
        Ok(given) => Ok(given),
        Err(_) => Err(NoMemory),
    }
}

// ---- what it touches

/// What a statement touches that gives this over the rows of a draft.
pub(crate) fn foot(
    alloc: Global,
    cat: &Catalog,
    draft: &Draft,
    plan: &Plan,
    given: &Given,
) -> Result<Footprint, NoMemory>
    ensures { (r : Reading) → TellsTables r → ListsAscending r → (db : Database) → db.things ≡ cat.now → db.rows ≡ after draft.now → IfOk result (λ foot. foot ≡ foot_of r db plan.now given.now) }
{
    let before = RowsInDraft { draft };
    touched(alloc, cat, &before, plan, given)
}
