// Answers of one kind, as those to statements.
ghost use Rattle.std.specs.Prelude.{◌≡◌};
ghost use Rattle.hs_plan.specs.declared.plan.Plan.TheVariants as plan;
ghost use Rattle.hs_statements.specs.Statements.{as_plan};

use hs_plan::{BindFault, Definition, Delete, Insert, LockedTable, Plan, Query, Update};
use sqlite_items::Items;

/// A query.
pub(crate) fn queried(answer: Result<Query, BindFault>) -> Result<Plan, BindFault>
    ensures { result ≡ as_plan plan.Query answer }
{
    Ok(Plan::Query(answer?))
}

/// INSERT.
pub(crate) fn inserted(answer: Result<Insert, BindFault>) -> Result<Plan, BindFault>
    ensures { result ≡ as_plan plan.Insert answer }
{
    Ok(Plan::Insert(answer?))
}

/// UPDATE.
pub(crate) fn updated(answer: Result<Update, BindFault>) -> Result<Plan, BindFault>
    ensures { result ≡ as_plan plan.Update answer }
{
    Ok(Plan::Update(answer?))
}

/// DELETE.
pub(crate) fn deleted(answer: Result<Delete, BindFault>) -> Result<Plan, BindFault>
    ensures { result ≡ as_plan plan.Delete answer }
{
    Ok(Plan::Delete(answer?))
}

/// LOCK TABLE.
pub(crate) fn locked(answer: Result<Items<LockedTable>, BindFault>) -> Result<Plan, BindFault>
    ensures { result ≡ as_plan plan.LockTable answer }
{
    Ok(Plan::LockTable(answer?))
}

/// A definition.
pub(crate) fn defined(answer: Result<Definition, BindFault>) -> Result<Plan, BindFault>
    ensures { result ≡ as_plan plan.Define answer }
{
    Ok(Plan::Define(answer?))
}
