// Any statement.
ghost use Rattle.hs_values.specs.Outcome.{Gives};
ghost use Rattle.hs_acting.specs.Kept.{keys_in};
ghost use Rattle.hs_dml.specs.Told as spec;

use crate::answers::Answers;
use crate::deleting::of_delete;
use crate::inserting::of_insert;
use crate::updating::of_update;
use hs_acting::References;
use hs_cascade::RowsBefore;
use hs_newrows::Evaluates;
use hs_plan::{Changes, Plan};
use hs_schema::Catalog;
use hs_values::EvalFault;
use std::alloc::Global;

/// The changes that a bound statement makes of the rows as they are before it, computed from these rows alone: those of an
/// INSERT in the order of its rows, and of an UPDATE or a DELETE one for each row, by the numbers of tables and then of
/// rows, with the rows that the actions of foreign keys change. Every other statement makes none. `keys` are the foreign
/// keys by the tables that they reference. An `Err` is that of the first part that has a fault, the least over its rows, or
/// `NoMemory` for want of memory.
pub fn tentative<E: Evaluates, Q: Answers, B: RowsBefore>(
    alloc: Global,
    cat: &Catalog,
    evaluator: &E,
    queries: &Q,
    before: &B,
    keys: &References,
    plan: &Plan,
) -> Result<Changes, EvalFault>
    ensures { Gives result (spec.tentative (spec.around_of cat.now (E.evaluate evaluator.now) (Q.answer queries.now) (keys_in keys.now) (B.maps before.now)) plan.now) }
{
    match plan {
        Plan::Insert(insert) => of_insert(alloc, cat, evaluator, queries, insert),
        Plan::Update(update) => of_update(alloc, cat, evaluator, before, keys, update),
        Plan::Delete(delete) => of_delete(alloc, evaluator, before, keys, delete),
        Plan::Query(_) => Ok(Changes::new(alloc)),
        Plan::LockTable(_) => Ok(Changes::new(alloc)),
        Plan::Define(_) => Ok(Changes::new(alloc)),
        Plan::Session(_) => Ok(Changes::new(alloc)),
    }
}
