// What data statements come to.
ghost use Rattle.std.specs.Prelude.{◌≡◌, ◌++◌, List, true, IfOk};
ghost use Rattle.hs_asking.specs.Asking.{IsStatement};
ghost use Rattle.hs_changes.specs.Changes.{count_all_inserted};
ghost use Rattle.hs_turns.specs.Database.{Database, view};
ghost use Rattle.hs_turns.specs.Histories.{Commit};
ghost use Rattle.hs_instance.specs.Instance.{IsInstance};
ghost use Rattle.hs_language.specs.Outcomes.{of_plan};
ghost use Rattle.hs_language.specs.Reading.{Reading, TellsTables};
ghost use Rattle.hs_language.specs.Validity.{all_hold};
ghost use Rattle.hs_outcome.specs.Same.{ListsAscending};
ghost use Rattle.hs_plan.specs.declared.change.Change.{Change as TheChange};
ghost use Rattle.hs_queue.specs.Entries.{entry_of};
ghost use Rattle.hs_seams.specs.Calls.{IsEntry};
ghost use Rattle.hs_seams.specs.Stores.{Evaluates, outcome_of, seen};
ghost use Rattle.hs_seams.specs.World.{World};
ghost use Rattle.hs_engine.specs.Store.{IsHere, SpeaksSql};

use hs_asking::admitted;
use hs_ast::Stmt;
use hs_base::NoMemory;
use hs_evaluated::evaluate;
use hs_instance::Instance;
use hs_plan::Plan;
use hs_queue::Entry;
use hs_seams::Outcome;
use hs_values::Chars;

// What a bound data statement comes to. Its changes are made behind those that are there.
fn outcome(instance: &mut Instance, plan: &Plan) -> Result<Outcome, NoMemory>
    ensures { (r : Reading) → TellsTables r → ListsAscending r → (db : Database) (seated : List TheChange) → IsInstance db seated instance.old → all_hold (view db seated) ≡ true
        → IfOk result (λ o. (outcome_of o ≡ of_plan r (count_all_inserted seated) (view db seated) plan.now) × IsInstance db (seated ++ o.changes) instance.new) }
{
    evaluate(
        instance.alloc,
        &instance.catalog,
        &instance.keys,
        &mut instance.seated,
        plan,
    )
}

/// What the data statement of an entry comes to, or why it is refused before it wants anything. Its changes are made
/// behind those that are there. An `Err` is want of memory, and then nothing is known of the database.
pub(crate) fn evaluated(
    instance: &mut Instance,
    entry: &Entry,
    statement: &Stmt,
    read_only: bool,
) -> Result<Result<Outcome, Chars>, NoMemory>
    requires entry { IsEntry entry.now }
    requires tree { IsStatement statement.now (entry_of entry.now).text }
    ensures { (w : World) (commits : List Commit) (seated : List TheChange) → SpeaksSql w → IsHere instance.old w commits seated → w.run.dialect.is_valid (seen w commits seated) ≡ true
        → IfOk result (Evaluates (IsHere instance.new) w commits seated read_only (entry_of entry.now).text) }
{
    let admission = admitted(&instance.catalog, entry, statement, read_only)?;
    match admission {
        Ok(plan) => {
            let told = outcome(instance, &plan);
            drop(plan);
            Ok(Ok(told?))
        }
        Err(why) => Ok(Err(why)),
    }
}
