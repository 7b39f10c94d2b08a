// The constraint that changes violate.
ghost use Rattle.std.specs.Prelude.{◌≡◌, ℕ, List, IfOk};
ghost use Rattle.hs_applied.specs.Applied.{IsAfter};
ghost use Rattle.hs_constraints.specs.Changed.{Changed, HeldBefore, first_of_all};
ghost use Rattle.hs_turns.specs.Database.{Database};
ghost use Rattle.hs_draft.specs.Drafted.{after, before, touched};
ghost use Rattle.hs_language.specs.Outcomes.{violated_by};
ghost use Rattle.hs_language.specs.Validity.{lets_pass};
ghost use Rattle.hs_plan.specs.declared.change.Change.{Change};

use hs_base::NoMemory;
use hs_checks::Conditions;
use hs_constraints::{Violation, first_violated};
use hs_draft::{Draft, DraftChanges};
use hs_schema::Catalog;

/// The first constraint, in the order of creation, that the changed rows of a draft violate, and how: None where all
/// hold. The changed rows are looked at alone, and those that have their keys: so the rows before the changes are
/// those of a database in which all constraints hold. An `Err` is want of memory: a fault of a CHECK is a violation.
pub fn violated(
    catalog: &Catalog,
    draft: &Draft,
    checks: &Conditions,
) -> Result<Option<Violation>, NoMemory>
    ensures { (inserted : ℕ) (db : Database) (changes : List Change) → IsAfter inserted db changes catalog.now draft.now → IfOk result (λ first. first ≡ violated_by inserted db changes) }
{
    let mut rows = DraftChanges {
        catalog,
        draft,
        checks,
    };
    match first_violated(catalog, &mut rows) {
        Ok(first) => Ok(first),
        Err(_) => Err(NoMemory),
    }
}
