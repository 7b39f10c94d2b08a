// What a statement gives over rows.
ghost use Rattle.std.specs.Prelude.{◌≡◌, ℕ, true, false, Ok, IfOk};
ghost use Rattle.hs_acting.specs.Kept.{keys_in};
ghost use Rattle.hs_turns.specs.Database.{Database};
ghost use Rattle.hs_exec.specs.Executed.{executed};
ghost use Rattle.hs_language.specs.Outcomes.{of_plan};
ghost use Rattle.hs_language.specs.Reading.{Reading};
ghost use Rattle.hs_references.specs.Referenced.{AreOf};
ghost use Rattle.hs_rel.specs.Outcome.{IsNoVerdict, stop_of};
ghost use Rattle.hs_rows.specs.Looks.{Looks};
ghost use Rattle.hs_outcome.specs.Counted as spec;
ghost use Rattle.hs_outcome.specs.Given.{outcome_of};

use crate::counting::own_count;
use crate::given::Given;
use crate::settled::settled;
use hs_acting::References;
use hs_base::Steps;
use hs_cascade::RowsBefore;
use hs_exec::{Answer, execute_with};
use hs_plan::{Changes, Plan};
use hs_rel::EvalStop;
use hs_rows::Rows;
use hs_schema::Catalog;
use std::alloc::Global;

// Whether a statement is a query or a change of rows.
fn is_evaluated(plan: &Plan) -> bool
    ensures { result ≡ spec.is_evaluated plan.now }
{
    match plan {
        Plan::Query(_) => true,
        Plan::Insert(_) => true,
        Plan::Update(_) => true,
        Plan::Delete(_) => true,
        Plan::LockTable(_) => false,
        Plan::Define(_) => false,
        Plan::Session(_) => false,
    }
}

// What any other statement gives.
fn unevaluated(plan: &Plan) -> Given
    ensures { spec.is_evaluated plan.now ≡ false → (r : Reading) (inserted : ℕ) (db : Database) → of_plan r inserted db plan.now ≡ outcome_of r inserted db plan.now result }
{
    match plan {
        Plan::Query(_) => Given::Nothing,
        Plan::Insert(_) => Given::Nothing,
        Plan::Update(_) => Given::Nothing,
        Plan::Delete(_) => Given::Nothing,
        Plan::LockTable(_) => Given::Locked,
        Plan::Define(_) => Given::Nothing,
        Plan::Session(_) => Given::Nothing,
    }
}

// Changes with the number of rows that the statement puts or deletes itself.
fn counted<R: Rows, B: RowsBefore, L>(
    cat: &Catalog,
    keys: &References,
    rows: &mut R,
    before: &B,
    plan: &Plan,
    changes: Changes,
    steps: &mut Steps<L>,
) -> Result<Given, EvalStop>
    requires { R.ready rows.old }
    ensures outcome { R.tells rows.old → B.maps before.now ≡ R.tables rows.old → executed (R.tables rows.old) cat.now (keys_in keys.now) plan.now ≡ Ok (Answer.Changes changes) → spec.is_evaluated plan.now ≡ true → AreOf cat.now (keys_in keys.now) → (r : Reading) (inserted : ℕ) (db : Database) → db.things ≡ cat.now → db.rows ≡ R.tables rows.old → IfOk result (λ given. of_plan r inserted db plan.now ≡ outcome_of r inserted db plan.now given) }
    ensures err { IsNoVerdict result }
    ensures looks { Looks R.Rows (stop_of result) rows.old rows.new }
{
    let count = own_count(cat, keys, rows, before, plan, &changes, steps)?;
    Ok(Given::Changes(changes, count))
}

// What a query or a change of rows gives.
fn evaluated<R: Rows, B: RowsBefore, L>(
    alloc: Global,
    cat: &Catalog,
    keys: &References,
    rows: &mut R,
    before: &B,
    plan: &Plan,
    steps: &mut Steps<L>,
) -> Result<Given, EvalStop>
    requires { R.ready rows.old }
    ensures outcome { R.tells rows.old → B.maps before.now ≡ R.tables rows.old → spec.is_evaluated plan.now ≡ true → AreOf cat.now (keys_in keys.now) → (r : Reading) (inserted : ℕ) (db : Database) → db.things ≡ cat.now → db.rows ≡ R.tables rows.old → IfOk result (λ given. of_plan r inserted db plan.now ≡ outcome_of r inserted db plan.now given) }
    ensures err { IsNoVerdict result }
    ensures looks { Looks R.Rows (stop_of result) rows.old rows.new }
{
    match settled(execute_with(alloc, cat, keys, rows, before, plan, steps))? {
        Ok(Answer::Rows(answer)) => Ok(Given::Rows(answer)),
        Ok(Answer::Changes(changes)) => counted(cat, keys, rows, before, plan, changes, steps),
        Err(fault) => Ok(Given::Fault(fault)),
    }
}

/// What a bound statement gives over these rows: the rows of a query, the changes of an INSERT, an UPDATE or a DELETE
/// with those of foreign key actions, or the fault for which it is refused. `keys` are the foreign keys of the
/// catalogue, which `hs_references` makes, and `before` has the same rows, by their numbers and keys. Each row that is
/// looked at is a step, but none of `before`; no constraint is asked. An `Err` is a stop of the rows as they gave it, or
/// want of memory.
pub fn give<R: Rows, B: RowsBefore, L>(
    alloc: Global,
    cat: &Catalog,
    keys: &References,
    rows: &mut R,
    before: &B,
    plan: &Plan,
    steps: &mut Steps<L>,
) -> Result<Given, EvalStop>
    requires { R.ready rows.old }
    ensures outcome { R.tells rows.old → B.maps before.now ≡ R.tables rows.old → AreOf cat.now (keys_in keys.now) → (r : Reading) (inserted : ℕ) (db : Database) → db.things ≡ cat.now → db.rows ≡ R.tables rows.old → IfOk result (λ given. of_plan r inserted db plan.now ≡ outcome_of r inserted db plan.now given) }
    ensures err { IsNoVerdict result }
    ensures looks { Looks R.Rows (stop_of result) rows.old rows.new }
{
    if is_evaluated(plan) {
        return evaluated(alloc, cat, keys, rows, before, plan, steps);
    }
    Ok(unevaluated(plan))
}
