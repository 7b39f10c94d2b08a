// The changes that edited rows are.
ghost use Rattle.std.specs.Prelude.{◌≡◌, List, map, Ok, IfOk};
ghost use Rattle.hs_plan.specs.declared.change.Change.{Change as TheChange};
ghost use Rattle.hs_values.specs.Outcome.{Gives};
ghost use Rattle.hs_acting.specs.Kept.{keys_in};
ghost use Rattle.hs_actions.specs.Work.{change_of as the_change};
ghost use Rattle.hs_tentative.specs.Statements.{with_those_of_actions};
ghost use Rattle.hs_tentative.specs.NewRows.{Evaluate};
ghost use Rattle.hs_schema.specs.Catalogue.{Things};
ghost use Rattle.hs_dml.specs.Told.{Answer, around_of};

use hs_acting::References;
use hs_base::{NoMemory, RowName};
use hs_cascade::{RowsBefore, with_actions};
use hs_plan::{Change, Changes};
use hs_values::{EvalFault, Row};
use std::alloc::Global;
use std::collections::BTreeMap;

fn change_of(name: RowName, values: Option<Row>) -> Change
    ensures { result ≡ the_change (name, values) }
{
    match values {
        Some(values) => Change::Put(name.table, name.row, values),
        None => Change::Delete(name.table, name.row),
    }
}

// One change for each row, by the numbers of tables and then of rows.
fn changes_of(alloc: Global, edits: BTreeMap<RowName, Option<Row>>) -> Result<Changes, NoMemory>
    ensures { IfOk result (λ changes. changes ≡ map the_change edits.entries) }
{
    let mut left = edits;
    let mut changes = Changes::new(alloc);
    while let Some((name, values)) = left.pop_first() {
        changes.push(change_of(name, values))?;
    }
    Ok(changes)
}

// The same changes, want of memory among the faults.
fn told(changes: Result<Changes, NoMemory>) -> Result<Changes, EvalFault>
    ensures { (means : List TheChange) → IfOk changes (λ all. all ≡ means) → Gives result (Ok means) }
{
    match changes {
        Ok(changes) => Ok(changes),
        Err(NoMemory) => Err(EvalFault::NoMemory),
    }
}

/// The changes of the rows that a statement changes itself, with those that actions change. An `Err` is the least fault of
/// the values that children get, or `NoMemory` for want of memory.
pub(crate) fn with_those_of_actions<B: RowsBefore>(
    alloc: Global,
    before: &B,
    keys: &References,
    edits: BTreeMap<RowName, Option<Row>>,
) -> Result<Changes, EvalFault>
    ensures { (things : Things) (evaluate : Evaluate) (answer : Answer) → Gives result (with_those_of_actions (around_of things evaluate answer (keys_in keys.now) (B.maps before.now)) edits.entries) }
{
    match with_actions(alloc, before, keys, edits) {
        Ok(all) => told(changes_of(alloc, all)),
        Err(fault) => Err(fault),
    }
}
