// The changes that a writing statement makes.
ghost use Rattle.std.specs.Prelude.{◌≡◌, None};
ghost use Rattle.hs_acting.specs.Kept.{keys_in};
ghost use Rattle.hs_answer.specs.Answer.{answer, evaluated};
ghost use Rattle.hs_copied.specs.Copies.{maps_of};
ghost use Rattle.hs_dml.specs.Told.{around_of, columns_in, tentative};
ghost use Rattle.hs_effects.specs.Effects.{around_in};
ghost use Rattle.hs_rel.specs.Outcome.{Answers, stop_of};
ghost use Rattle.hs_rows.specs.Looks.{Looks};
ghost use Rattle.hs_exec.specs.Before.{AreBefore};
ghost use Rattle.hs_exec.specs.Needed as spec;

use crate::over_copies::OverCopies;
use crate::reads::read_named;
use hs_acting::References;
use hs_cascade::RowsBefore;
use hs_copied::TableCopies;
use hs_dml::tentative;
use hs_plan::{Changes, Plan};
use hs_rel::EvalStop;
use hs_rows::Rows;
use hs_schema::Catalog;
use std::alloc::Global;

// Whether a statement may change rows.
fn is_writing(plan: &Plan) -> bool
    ensures { result ≡ spec.is_writing plan.now }
{
    match plan {
        Plan::Insert(_) => true,
        Plan::Update(_) => true,
        Plan::Delete(_) => true,
        Plan::Query(_) => false,
        Plan::LockTable(_) => false,
        Plan::Define(_) => false,
        Plan::Session(_) => false,
    }
}

// The changes that a statement makes whose expressions and queries are evaluated over copies.
fn changes_over<B: RowsBefore>(
    alloc: Global,
    cat: &Catalog,
    keys: &References,
    copies: &TableCopies,
    before: &B,
    plan: &Plan,
) -> Result<Changes, EvalStop>
    ensures changes { Answers (tentative (around_of cat.now (evaluated (maps_of copies.now)) (answer (maps_of copies.now)) (keys_in keys.now) (B.maps before.now)) plan.now) result }
    ensures never_stops { stop_of result ≡ None }
{
    let over = OverCopies { copies };
    match tentative(alloc, cat, &over, &over, before, keys, plan) {
        Ok(changes) => Ok(changes),
        Err(fault) => Err(EvalStop::Fault(fault)),
    }
}

// The changes that a statement makes.
fn changes_read<R: Rows, B: RowsBefore>(
    alloc: Global,
    cat: &Catalog,
    keys: &References,
    rows: &mut R,
    before: &B,
    plan: &Plan,
) -> Result<Changes, EvalStop>
    requires { R.ready rows.old }
    ensures changes { R.tells rows.old → AreBefore (R.tables rows.old) (keys_in keys.now) plan.now (B.maps before.now) → Answers (tentative (around_in (R.tables rows.old) (columns_in cat.now) (keys_in keys.now)) plan.now) result }
    ensures looks { Looks R.Rows (stop_of result) rows.old rows.new }
{
    let copies = read_named(alloc, rows, plan)?;
    changes_over(alloc, cat, keys, &copies, before, plan)
}

/// The changes that an INSERT, an UPDATE or a DELETE makes, and none of any other statement. `keys` are the foreign keys by
/// the tables that they reference, and `before` the rows that it changes, or at which actions look, where they lie. An `Err`
/// is the fault that it has, a stop of the rows as they gave it, or want of memory.
pub(crate) fn changes_of<R: Rows, B: RowsBefore>(
    alloc: Global,
    cat: &Catalog,
    keys: &References,
    rows: &mut R,
    before: &B,
    plan: &Plan,
) -> Result<Changes, EvalStop>
    requires { R.ready rows.old }
    ensures changes { R.tells rows.old → AreBefore (R.tables rows.old) (keys_in keys.now) plan.now (B.maps before.now) → Answers (tentative (around_in (R.tables rows.old) (columns_in cat.now) (keys_in keys.now)) plan.now) result }
    ensures looks { Looks R.Rows (stop_of result) rows.old rows.new }
{
    if is_writing(plan) {
        return changes_read(alloc, cat, keys, rows, before, plan);
    }
    Ok(Changes::new(alloc))
}
