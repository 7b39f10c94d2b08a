// How many rows a statement puts or deletes itself.
ghost use Rattle.std.specs.Prelude.{◌≡◌, List, [], length, Ok, IfOk};
ghost use Rattle.hs_acting.specs.Kept.{keys_in};
ghost use Rattle.hs_dml.specs.Told.{columns_in, tentative};
ghost use Rattle.hs_effects.specs.Effects.{around_in};
ghost use Rattle.hs_exec.specs.Executed.{executed};
ghost use Rattle.hs_language.specs.Outcomes as language;
ghost use Rattle.hs_plan.specs.declared.change.Change.{Change as TheChange};
ghost use Rattle.hs_rel.specs.Outcome.{Answers, IsNoVerdict, stop_of};
ghost use Rattle.hs_rows.specs.Looks.{Looks};
ghost use Rattle.hs_outcome.specs.Counted as spec;

use hs_acting::References;
use hs_base::{Steps, TableNo};
use hs_cascade::RowsBefore;
use hs_exec::{Answer, execute_with};
use hs_plan::{Changes, Plan};
use hs_rel::EvalStop;
use hs_rows::Rows;
use hs_schema::Catalog;
use hs_values::EvalFault;

// The table of an UPDATE or a DELETE.
fn acting_table(plan: &Plan) -> Option<TableNo>
    ensures { result ≡ spec.acting_table plan.now }
{
    match plan {
        Plan::Update(update) => Some(update.table),
        Plan::Delete(delete) => Some(delete.table),
        Plan::Query(_) => None,
        Plan::Insert(_) => None,
        Plan::LockTable(_) => None,
        Plan::Define(_) => None,
        Plan::Session(_) => None,
    }
}

// How many changes there are.
fn changes_told(given: Result<Answer, EvalStop>) -> Result<usize, EvalStop>
    ensures count { (own : List TheChange) → Answers (Ok (Answer.Changes own)) given → IfOk result (λ n. n ≡ length own) }
    ensures err { IsNoVerdict result }
    ensures stop { stop_of result ≡ stop_of given }
{
    match given {
        Ok(Answer::Changes(own)) => Ok(own.len()),
        Ok(Answer::Rows(_)) => Ok(0),
        Err(EvalStop::Fault(_)) => Err(EvalStop::Fault(EvalFault::NoMemory)),
        Err(EvalStop::Stop(kind)) => Err(EvalStop::Stop(kind)),
    }
}

// How many rows an UPDATE or a DELETE changes where no foreign key acts.
fn alone<R: Rows, B: RowsBefore, L>(
    cat: &Catalog,
    rows: &mut R,
    before: &B,
    plan: &Plan,
    steps: &mut Steps<L>,
) -> Result<usize, EvalStop>
    requires { R.ready rows.old }
    ensures count { R.tells rows.old → B.maps before.now ≡ R.tables rows.old → (own : List TheChange) → executed (R.tables rows.old) cat.now [] plan.now ≡ Ok (Answer.Changes own) → IfOk result (λ n. n ≡ length own) }
    ensures err { IsNoVerdict result }
    ensures looks { Looks R.Rows (stop_of result) rows.old rows.new }
{
    let alloc = cat.alloc();
    let none = References::new(alloc);
    changes_told(execute_with(alloc, cat, &none, rows, before, plan, steps))
}

/// How many rows a statement puts or deletes itself, whose changes these are, without those that the actions of
/// foreign keys change. Where none references its table, these are all of them, and else it is evaluated again
/// without actions, over the same rows. An `Err` is a stop of the rows as they gave it, or want of memory.
pub(crate) fn own_count<R: Rows, B: RowsBefore, L>(
    cat: &Catalog,
    keys: &References,
    rows: &mut R,
    before: &B,
    plan: &Plan,
    changes: &Changes,
    steps: &mut Steps<L>,
) -> Result<usize, EvalStop>
    requires { R.ready rows.old }
    ensures count { R.tells rows.old → B.maps before.now ≡ R.tables rows.old → tentative (around_in (R.tables rows.old) (columns_in cat.now) (keys_in keys.now)) plan.now ≡ Ok changes.now → IfOk result (λ n. n ≡ language.own_count (around_in (R.tables rows.old) (columns_in cat.now) (keys_in keys.now)) plan.now changes.now) }
    ensures err { IsNoVerdict result }
    ensures looks { Looks R.Rows (stop_of result) rows.old rows.new }
{
    let Some(table) = acting_table(plan) else {
        return Ok(changes.len());
    };
    if keys.on(table).is_empty() {
        return Ok(changes.len());
    }
    alone(cat, rows, before, plan, steps)
}
