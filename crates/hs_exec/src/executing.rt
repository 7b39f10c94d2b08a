// What a bound statement gives.
ghost use Rattle.std.specs.Prelude.{◌≡◌, List, Result, true, IfOk};
ghost use Rattle.std.specs.Option.{option_copied};
ghost use Rattle.hs_plan.specs.declared.change.Change.{Change};
ghost use Rattle.hs_values.specs.declared.fault.EvalFault.{EvalFault as Fault};
ghost use Rattle.hs_expression.specs.Surroundings.{Rows as RowsOf};
ghost use Rattle.hs_acting.specs.Kept.{keys_in};
ghost use Rattle.hs_actions.specs.Referencing.{Keys};
ghost use Rattle.hs_references.specs.Referenced.{AreOf};
ghost use Rattle.hs_rel.specs.Outcome.{Answers, IsMemoryAlone, stop_of};
ghost use Rattle.hs_rows.specs.Looks.{Looks};
ghost use Rattle.hs_exec.specs.Before.{AreBefore};
ghost use Rattle.hs_exec.specs.Executed.{changes_answered, executed, rows_answered};
ghost use Rattle.hs_exec.specs.Needed as spec;

use crate::answer::Answer;
use crate::counted::Counted;
use crate::reads::read_before;
use crate::writing::changes_of;
use hs_acting::References;
use hs_base::{NoMemory, Steps};
use hs_cascade::RowsBefore;
use hs_eval::eval_query;
use hs_plan::{Changes, Plan, Query};
use hs_references::all_references;
use hs_rel::EvalStop;
use hs_rows::Rows;
use hs_schema::Catalog;
use hs_values::{EvalFault, RowList};
use std::alloc::Global;

// ---- answers

fn rows_told(given: Result<RowList, EvalStop>) -> Result<Answer, EvalStop>
    ensures answer { (means : Result RowsOf Fault) → Answers means given → Answers (rows_answered means) result }
    ensures stop { stop_of result ≡ stop_of given }
{
    match given {
        Ok(rows) => Ok(Answer::Rows(rows)),
        Err(stop) => Err(stop),
    }
}

fn changes_told(given: Result<Changes, EvalStop>) -> Result<Answer, EvalStop>
    ensures answer { (means : Result (List Change) Fault) → Answers means given → Answers (changes_answered means) result }
    ensures stop { stop_of result ≡ stop_of given }
{
    match given {
        Ok(changes) => Ok(Answer::Changes(changes)),
        Err(stop) => Err(stop),
    }
}

// ---- statements

// The query that a statement is.
fn query_of(plan: &Plan) -> Option<&Query>
    ensures { option_copied result ≡ spec.query_in plan.now }
{
    match plan {
        Plan::Query(query) => Some(query),
        Plan::Insert(_) => None,
        Plan::Update(_) => None,
        Plan::Delete(_) => None,
        Plan::LockTable(_) => None,
        Plan::Define(_) => None,
        Plan::Session(_) => None,
    }
}

// What a statement gives, where looks are counted by the rows.
fn execute_over<R: Rows, B: RowsBefore>(
    alloc: Global,
    cat: &Catalog,
    keys: &References,
    rows: &mut R,
    before: &B,
    plan: &Plan,
) -> Result<Answer, EvalStop>
    requires { R.ready rows.old }
    ensures answer { R.tells rows.old → AreBefore (R.tables rows.old) (keys_in keys.now) plan.now (B.maps before.now) → Answers (executed (R.tables rows.old) cat.now (keys_in keys.now) plan.now) result }
    ensures looks { Looks R.Rows (stop_of result) rows.old rows.new }
{
    match query_of(plan) {
        Some(query) => rows_told(eval_query(alloc, query, rows)),
        None => changes_told(changes_of(alloc, cat, keys, rows, before, plan)),
    }
}

/// What a bound statement gives over these rows, as `execute`, where the foreign keys of the catalogue are at hand, which
/// `hs_references` makes once for a catalogue, and where `before` has the same rows by their numbers and keys. An UPDATE or a
/// DELETE takes the rows that it changes, and those at which actions look, from there, where they lie. So no table is copied
/// but those that expressions and queries name. A look at rows of `before` is no step.
pub fn execute_with<R: Rows, B: RowsBefore, L>(
    alloc: Global,
    cat: &Catalog,
    keys: &References,
    rows: &mut R,
    before: &B,
    plan: &Plan,
    steps: &mut Steps<L>,
) -> Result<Answer, EvalStop>
    requires { R.ready rows.old }
    ensures answer { R.tells rows.old → B.maps before.now ≡ R.tables rows.old → Answers (executed (R.tables rows.old) cat.now (keys_in keys.now) plan.now) result }
    ensures looks { Looks R.Rows (stop_of result) rows.old rows.new }
{
    let mut counted = Counted { rows, steps };
    execute_over(alloc, cat, keys, &mut counted, before, plan)
}

// ---- rows that are read first

// The same over rows that must be read first.
fn execute_read<R: Rows>(
    alloc: Global,
    cat: &Catalog,
    keys: &References,
    rows: &mut R,
    plan: &Plan,
) -> Result<Answer, EvalStop>
    requires { R.ready rows.old }
    ensures answer { R.tells rows.old → Answers (executed (R.tables rows.old) cat.now (keys_in keys.now) plan.now) result }
    ensures looks { Looks R.Rows (stop_of result) rows.old rows.new }
{
    let before = read_before(alloc, keys, rows, plan)?;
    execute_over(alloc, cat, keys, rows, &before, plan)
}

// ---- foreign keys

fn needs_keys(plan: &Plan) -> bool
    ensures { result ≡ spec.needs_keys plan.now }
{
    match plan {
        Plan::Update(_) => true,
        Plan::Delete(_) => true,
        Plan::Query(_) => false,
        Plan::Insert(_) => false,
        Plan::LockTable(_) => false,
        Plan::Define(_) => false,
        Plan::Session(_) => false,
    }
}

fn all_keys(cat: &Catalog) -> Result<References, EvalStop>
    ensures keys { IfOk result (λ keys. AreOf cat.now (keys_in keys)) }
    ensures err { IsMemoryAlone result }
{
    match all_references(cat) {
        Ok(keys) => Ok(keys),
        Err(NoMemory) => Err(EvalStop::Fault(EvalFault::NoMemory)),
    }
}

// The foreign keys of the catalogue, where the statement needs them.
fn keys_for(cat: &Catalog, plan: &Plan) -> Result<References, EvalStop>
    ensures keys { IfOk result (λ keys. spec.needs_keys plan.now ≡ true → AreOf cat.now (keys_in keys)) }
    ensures err { IsMemoryAlone result }
{
    if needs_keys(plan) {
        return all_keys(cat);
    }
    Ok(References::new(cat.alloc()))
}

/// What a statement that is bound over a catalogue gives over these rows: the rows of a query, or the changes that an
/// INSERT, an UPDATE or a DELETE makes, with those of foreign key actions; every other statement makes no change of rows.
/// Each row that is looked at is a step. The tables that the statement needs are read once each, and it is evaluated over
/// copies. An UPDATE or a DELETE takes all foreign keys of the catalogue together first, and copies the rows that it changes
/// and those at which actions look, which `execute_with` doesn't. An `Err` is the fault of the first part that has one, the
/// least over its rows, a stop of the rows as they gave it, or want of memory.
pub fn execute<R: Rows, L>(
    alloc: Global,
    cat: &Catalog,
    rows: &mut R,
    plan: &Plan,
    steps: &mut Steps<L>,
) -> Result<Answer, EvalStop>
    requires { R.ready rows.old }
    ensures answer { R.tells rows.old → (keys : Keys) → AreOf cat.now keys → Answers (executed (R.tables rows.old) cat.now keys plan.now) result }
    ensures looks { Looks R.Rows (stop_of result) rows.old rows.new }
{
    let keys = keys_for(cat, plan)?;
    let mut counted = Counted { rows, steps };
    execute_read(alloc, cat, &keys, &mut counted, plan)
}
