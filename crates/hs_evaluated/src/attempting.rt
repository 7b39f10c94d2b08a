// Changes that are made, and taken back where they aren't kept.
ghost use Rattle.std.specs.Prelude.{◌≡◌, ◌++◌, [], List, true, length, IfOk, OnOk, if◌then◌else◌};
ghost use Rattle.hs_changes.specs.Changes.{count_all_inserted};
ghost use Rattle.hs_changes.specs.Settings.{Maps};
ghost use Rattle.hs_turns.specs.Database.{Database, view};
ghost use Rattle.hs_language.specs.Outcomes.{violated_by};
ghost use Rattle.hs_language.specs.Validity.{all_hold};
ghost use Rattle.hs_plan.specs.declared.change.Change.{Change as TheChange};
ghost use Rattle.hs_seated.specs.Seated.{IsSeated};

use hs_applied::violated;
use hs_base::NoMemory;
use hs_checks::Conditions;
use hs_plan::Change;
use hs_schema::Catalog;
use hs_seated::Seated;
use hs_sentences::Violation;
use std::alloc::Global;

// Makes changes behind the others, and tells the first constraint that they violate.
fn attempt(
    alloc: Global,
    cat: &Catalog,
    seated: &mut Seated,
    changes: &[Change],
) -> Result<Option<Violation>, NoMemory>
    ensures seated { (maps : Maps) (behind : List TheChange) → IsSeated maps behind seated.old → OnOk result (IsSeated maps (behind ++ changes.now) seated.new) }
    ensures violated { (db : Database) (behind : List TheChange) → IsSeated db.rows behind seated.old → db.things ≡ cat.now → all_hold (view db behind) ≡ true → IfOk result (λ first. first ≡ violated_by (count_all_inserted behind) (view db behind) changes.now) }
{
    seated.accept();
    seated.advance(changes)?;
    let first = violated(cat, &seated.rows.draft, &Conditions { alloc })?;
    Ok(first)
}

/// Makes the changes of a statement behind those that are there, and tells the first constraint that they violate.
/// Where there are none, nothing is looked at.
pub(crate) fn first_violated(
    alloc: Global,
    cat: &Catalog,
    seated: &mut Seated,
    changes: &[Change],
) -> Result<Option<Violation>, NoMemory>
    ensures seated { (maps : Maps) (behind : List TheChange) → IsSeated maps behind seated.old → OnOk result (IsSeated maps (behind ++ changes.now) seated.new) }
    ensures violated { (db : Database) (behind : List TheChange) → IsSeated db.rows behind seated.old → db.things ≡ cat.now → all_hold (view db behind) ≡ true → IfOk result (λ first. first ≡ violated_by (count_all_inserted behind) (view db behind) changes.now) }
{
    if changes.is_empty() {
        return Ok(None);
    }
    attempt(alloc, cat, seated, changes)
}

/// Takes the changes behind the first so many back where they aren't kept.
pub(crate) fn keep(seated: &mut Seated, len: usize, is_kept: bool) -> Result<(), NoMemory>
    ensures { (maps : Maps) (behind changes : List TheChange) → len ≡ length behind → IsSeated maps (behind ++ changes) seated.old → OnOk result (IsSeated maps (behind ++ (if is_kept then changes else [])) seated.new) }
{
    if is_kept {
        return Ok(());
    }
    seated.back(len)
}
