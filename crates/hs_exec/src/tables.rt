// The tables that a writing statement needs.
ghost use Rattle.std.specs.Prelude.{◌≡◌, IfOk};
ghost use Rattle.hs_plan.specs.Named as spec;
ghost use Rattle.hs_rel.specs.Outcome.{IsMemoryAlone};
ghost use Rattle.hs_acting.specs.Kept.{keys_in};
ghost use Rattle.hs_before.specs.Family.{is_in};
ghost use Rattle.hs_exec.specs.Needed.{AreChanged};

use hs_acting::References;
use hs_base::{NoMemory, Tables};
use hs_before::family;
use hs_plan::{Plan, named_in_plan};
use hs_rel::EvalStop;
use hs_values::EvalFault;
use std::alloc::Global;

/// The numbers of the tables that a statement's queries and its conditions name, as often as they do. An `Err` is want of
/// memory.
pub(crate) fn named_tables(alloc: Global, plan: &Plan) -> Result<Tables, EvalStop>
    ensures tables { IfOk result (λ tables. tables ≡ spec.named_in_plan plan.now) }
    ensures err { IsMemoryAlone result }
{
    let mut tables = Tables::new(alloc);
    match named_in_plan(plan, &mut tables) {
        Ok(()) => Ok(tables),
        Err(NoMemory) => Err(EvalStop::Fault(EvalFault::NoMemory)),
    }
}

fn changed(alloc: Global, keys: &References, plan: &Plan) -> Result<Tables, NoMemory>
    ensures { IfOk result (λ tables. AreChanged (keys_in keys.now) plan.now (is_in tables)) }
{
    match plan {
        Plan::Update(update) => family(alloc, keys, update.table),
        Plan::Delete(delete) => family(alloc, keys, delete.table),
        Plan::Query(_) => Ok(Tables::new(alloc)),
        Plan::Insert(_) => Ok(Tables::new(alloc)),
        Plan::LockTable(_) => Ok(Tables::new(alloc)),
        Plan::Define(_) => Ok(Tables::new(alloc)),
        Plan::Session(_) => Ok(Tables::new(alloc)),
    }
}

/// The table whose rows an UPDATE or a DELETE changes, and those whose rows the actions of foreign keys may look at then. An
/// `Err` is want of memory.
pub(crate) fn changed_tables(
    alloc: Global,
    keys: &References,
    plan: &Plan,
) -> Result<Tables, EvalStop>
    ensures tables { IfOk result (λ tables. AreChanged (keys_in keys.now) plan.now (is_in tables)) }
    ensures err { IsMemoryAlone result }
{
    match changed(alloc, keys, plan) {
        Ok(tables) => Ok(tables),
        Err(NoMemory) => Err(EvalStop::Fault(EvalFault::NoMemory)),
    }
}
