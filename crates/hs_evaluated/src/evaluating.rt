// What a data statement comes to, and leaves.
ghost use Rattle.std.specs.Prelude.{◌≡◌, List, true, IfOk};
ghost use Rattle.hs_acting.specs.Kept.{keys_in};
ghost use Rattle.hs_turns.specs.Database.{Database, view};
ghost use Rattle.hs_language.specs.Reading.{Reading, TellsTables};
ghost use Rattle.hs_language.specs.Validity.{all_hold};
ghost use Rattle.hs_outcome.specs.Same.{ListsAscending};
ghost use Rattle.hs_plan.specs.declared.change.Change.{Change as TheChange};
ghost use Rattle.hs_references.specs.Referenced.{AreOf};
ghost use Rattle.hs_seated.specs.Seated.{IsSeated};
ghost use Rattle.hs_evaluated.specs.Evaluated.{IsEvaluated};

use crate::attempting::{first_violated, keep};
use crate::finishing::{changes_of, outcome};
use crate::giving::{foot, given};
use hs_acting::References;
use hs_base::NoMemory;
use hs_outcome::is_kept;
use hs_plan::Plan;
use hs_schema::Catalog;
use hs_seams::Outcome;
use hs_seated::Seated;
use std::alloc::Global;

/// What a bound data statement comes to over the rows of a database with the changes of a transaction on them, all of
/// which hold the constraints: the lines of the rows that it answers, its reply, its changes and what it touches, as
/// the language says. Its changes are made behind the others; where they violate a constraint, or put a row that is
/// too long, they are taken back, and it has none. `keys` are the foreign keys of the catalogue, which
/// `hs_references` makes. An `Err` is want of memory, or comes at an answered row with a value that no type has; then
/// nothing is known of the rows.
pub fn evaluate(
    alloc: Global,
    cat: &Catalog,
    keys: &References,
    seated: &mut Seated,
    plan: &Plan,
) -> Result<Outcome, NoMemory>
    ensures { (r : Reading) → TellsTables r → ListsAscending r → AreOf cat.now (keys_in keys.now) → (db : Database) (behind : List TheChange) → IsSeated db.rows behind seated.old → db.things ≡ cat.now → all_hold (view db behind) ≡ true → IfOk result (λ o. IsEvaluated r db behind plan.now o seated.new) }
{
    let before = seated.len();
    let given = given(alloc, cat, keys, &seated.rows.draft, plan)?;
    let foot = foot(alloc, cat, &seated.rows.draft, plan, &given)?;
    let violation = first_violated(alloc, cat, seated, changes_of(&given))?;
    let kept = is_kept(cat, &violation, &given);
    keep(seated, before, kept)?;
    let told = outcome(alloc, cat, &violation, kept, given, foot)?;
    Ok(told)
}
