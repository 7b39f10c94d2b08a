// Conditions bound over the columns of a table.
ghost use Rattle.std.specs.Prelude.{◌≡◌, List, IfOk};
ghost use Rattle.hs_conditions.specs.Reading as spec;
ghost use Rattle.hs_meaning.specs.Parts.{broken_at, of_one, part_by, tree_in, tree_of};
ghost use Rattle.hs_meaning.specs.Statements.{IsAnswer, check_meaning};
ghost use Rattle.hs_plan.specs.declared.fault.PlacedFault.{PlacedFault};
ghost use Rattle.hs_meaning.specs.Finding.{Finds};
ghost use Rattle.hs_typed.specs.Faults.{least, noted};
ghost use Rattle.hs_typed.specs.Rules.{condition_typed};

use hs_ast::Condition;
use hs_base::NoMemory;
use hs_binding::Binder;
use hs_meaning::{Surroundings, note_types};
use hs_plan::{BindFault, Column, Expr};
use hs_schema::{Catalog, Table};
use hs_scope::{FromTable, Scope};
use hs_typed::{Faults, Typed, bind_condition};
use std::alloc::Global;

// A table as its CHECKs see it.
fn seen_by_checks(alloc: Global, name: &str, columns: &[Column]) -> Result<Scope, NoMemory>
    ensures { IfOk result (λ scope. scope ≡ spec.seen_by_checks name.now columns.now) }
{
    let mut scope = Scope::new(alloc);
    scope.push(alloc, FromTable::of_table(alloc, name, columns)?)?;
    Ok(scope)
}

// What stands behind CHECK, at byte `at`. None where it isn't known, and where it is no BOOLEAN, which is noted.
fn condition(at: u32, a: Option<Typed>, faults: &mut Faults) -> Option<Typed>
    ensures part { result ≡ part_by (of_one condition_typed a) }
    ensures noted { faults.new ≡ noted faults.old (broken_at at (of_one condition_typed a)) }
{
    match bind_condition(a?) {
        Ok(a) => Some(a),
        Err(_) => {
            note_types(at, faults);
            None
        }
    }
}

// What a condition means, which is one without queries, so that no catalogue counts.
fn checked<B: Binder>(
    binder: &B,
    scope: &Scope,
    e: &Condition,
    faults: &mut Faults,
    alloc: Global,
) -> Result<Option<Typed>, NoMemory>
    ensures { Finds (check_meaning scope.now e.now) faults.old faults.new result }
{
    let outermost = Surroundings::outermost();
    let rows = Surroundings::over_rows(scope, &outermost);
    let around = rows.in_check();
    let none = Catalog::new(alloc);
    let part = binder.expression(e, &around, &none, faults, alloc)?;
    Ok(condition(e.at, part, faults))
}

// The tree of what is meant, where nothing is wrong. Without a fault something is meant.
fn answer(faults: Faults, part: Option<Typed>) -> Result<Expr, BindFault>
    ensures { (all : List PlacedFault) → faults ≡ least all → IsAnswer all (tree_of part) result }
{
    match faults.into_answer() {
        Some(fault) => Err(fault),
        None => match part {
            Some(a) => Ok(a.tree),
            None => Err(BindFault::NoMemory),
        },
    }
}

// What a condition means as a CHECK of a table of this name and these columns.
fn bound_over<B: Binder>(
    binder: &B,
    name: &str,
    columns: &[Column],
    e: &Condition,
    alloc: Global,
) -> Result<Expr, BindFault>
    ensures { let m = tree_in (check_meaning (spec.seen_by_checks name.now columns.now) e.now) in IsAnswer m.faults m.part result }
{
    let scope = seen_by_checks(alloc, name, columns)?;
    let mut faults = Faults::new();
    let part = checked(binder, &scope, e, &mut faults, alloc)?;
    answer(faults, part)
}

/// What a condition means as a CHECK of a table, whose columns it sees alone, by their names or with the table's in front. A column
/// that isn't there is `NoSuch`, and a broken rule of types is `Types`, as are a query, an aggregate and a condition that is no BOOLEAN,
/// each at its place. Of several faults that of the first class is told, and in a class the leftmost. `NoMemory` is want of memory.
pub fn bind_check<B: Binder>(
    binder: &B,
    table: &Table,
    e: &Condition,
    alloc: Global,
) -> Result<Expr, BindFault>
    ensures { let m = tree_in (check_meaning (spec.seen_by_checks table.now.name table.now.columns) e.now) in IsAnswer m.faults m.part result }
{
    bound_over(
        binder,
        table.name.as_str(),
        table.columns.as_slice(),
        e,
        alloc,
    )
}

/// What a condition means over columns, none where it has a fault. An `Err` is want of memory.
#[tactic(auto, using(crate::proofs::Meant::known, crate::proofs::Meant::unknown))]
pub(crate) fn meant_over<B: Binder>(
    binder: &B,
    columns: &[Column],
    e: &Condition,
    alloc: Global,
) -> Result<Option<Expr>, NoMemory>
    ensures { IfOk result (λ found. found ≡ spec.meant_over columns.now e.now) }
{
    match bound_over(binder, "T", columns, e, alloc) {
        Ok(condition) => Ok(Some(condition)),
        Err(BindFault::NoMemory) => Err(NoMemory),
        Err(_) => Ok(None),
    }
}
