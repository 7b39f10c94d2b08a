// The expressions and queries of a statement.
ghost use Rattle.std.specs.Prelude.{◌≡◌};
ghost use Rattle.hs_columns.specs.Bound.{FindsQuery};
ghost use Rattle.hs_meaning.specs.Layers.{means};
ghost use Rattle.hs_meaning.specs.Parts.{by_one};
ghost use Rattle.hs_meaning.specs.Statements.{condition_meaning, over, query_meaning, value_meaning};
ghost use Rattle.hs_meaning.specs.Trees.{part_of};
ghost use Rattle.hs_meaning.specs.Finding.{Finds};
ghost use Rattle.hs_typed.specs.Rules.{assigned_typed, condition_typed};
ghost use Rattle.hs_writing.specs.Statements as spec;
ghost use Rattle.hs_writing.specs.Values.{expression_for};

use hs_ast::{Expression, Query};
use hs_base::NoMemory;
use hs_binding::Binder;
use hs_columns::BoundQuery;
use hs_conclusions::{assigned, condition};
use hs_meaning::Surroundings;
use hs_plan::Expr;
use hs_schema::Catalog;
use hs_scope::Scope;
use hs_typed::{Faults, Typed};
use hs_values::SqlType;
use std::alloc::Global;

/// A query by itself. An `Err` is want of memory.
pub fn query_alone<B: Binder>(
    binder: &B,
    query: &Query,
    catalog: &Catalog,
    faults: &mut Faults,
    alloc: Global,
) -> Result<BoundQuery, NoMemory>
    ensures { FindsQuery (query_meaning catalog.now query.now) faults.old faults.new result }
{
    let around = Surroundings::outermost();
    binder.query(query, &around, catalog, faults, alloc)
}

// An expression over the rows of one table, or of none.
fn expression_over<B: Binder>(
    binder: &B,
    e: &Expression,
    scope: &Scope,
    catalog: &Catalog,
    faults: &mut Faults,
    alloc: Global,
) -> Result<Option<Typed>, NoMemory>
    ensures { Finds (means (part_of catalog.now e.now) (over scope.now)) faults.old faults.new result }
{
    let outermost = Surroundings::outermost();
    let around = Surroundings::over_rows(scope, &outermost);
    binder.expression(e, &around, catalog, faults, alloc)
}

// A value that is told at byte `at`.
fn value_at<B: Binder>(
    binder: &B,
    at: u32,
    e: &Expression,
    column: &SqlType,
    scope: &Scope,
    catalog: &Catalog,
    faults: &mut Faults,
    alloc: Global,
) -> Result<Option<Typed>, NoMemory>
    ensures { Finds (by_one (assigned_typed column.now) at (means (part_of catalog.now e.now) (over scope.now))) faults.old faults.new result }
{
    let part = expression_over(binder, e, scope, catalog, faults, alloc)?;
    Ok(assigned(at, column, part, faults))
}

fn value_over<B: Binder>(
    binder: &B,
    e: &Expression,
    column: &SqlType,
    scope: &Scope,
    catalog: &Catalog,
    faults: &mut Faults,
    alloc: Global,
) -> Result<Option<Typed>, NoMemory>
    ensures { Finds (value_meaning catalog.now scope.now column.now e.now) faults.old faults.new result }
{
    value_at(binder, e.at, e, column, scope, catalog, faults, alloc)
}

/// A value for a column of a type, or of a column that isn't there. An `Err` is want of memory.
#[tactic(auto, unfolding(crate::specs::Values::expression_for))]
pub fn expression_for<B: Binder>(
    binder: &B,
    e: &Expression,
    column: Option<SqlType>,
    scope: &Scope,
    catalog: &Catalog,
    faults: &mut Faults,
    alloc: Global,
) -> Result<Option<Typed>, NoMemory>
    ensures { Finds (expression_for catalog.now scope.now column e.now) faults.old faults.new result }
{
    match column {
        Some(column) => value_over(binder, e, &column, scope, catalog, faults, alloc),
        None => expression_over(binder, e, scope, catalog, faults, alloc),
    }
}

// A condition that is told at byte `at`.
fn condition_at<B: Binder>(
    binder: &B,
    at: u32,
    e: &Expression,
    scope: &Scope,
    catalog: &Catalog,
    faults: &mut Faults,
    alloc: Global,
) -> Result<Option<Typed>, NoMemory>
    ensures { Finds (by_one condition_typed at (means (part_of catalog.now e.now) (over scope.now))) faults.old faults.new result }
{
    let part = expression_over(binder, e, scope, catalog, faults, alloc)?;
    Ok(condition(at, part, faults))
}

fn condition_over<B: Binder>(
    binder: &B,
    e: &Expression,
    scope: &Scope,
    catalog: &Catalog,
    faults: &mut Faults,
    alloc: Global,
) -> Result<Option<Typed>, NoMemory>
    ensures { Finds (condition_meaning catalog.now scope.now e.now) faults.old faults.new result }
{
    condition_at(binder, e.at, e, scope, catalog, faults, alloc)
}

/// WHERE over the rows of a table, where it is written. An `Err` is want of memory.
#[tactic(auto, unfolding(crate::specs::Statements::filter_meaning))]
pub fn filter_over<B: Binder>(
    binder: &B,
    filter: &Option<Expression>,
    scope: &Scope,
    catalog: &Catalog,
    faults: &mut Faults,
    alloc: Global,
) -> Result<Option<Option<Expr>>, NoMemory>
    ensures { Finds (spec.filter_meaning catalog.now scope.now filter.now) faults.old faults.new result }
{
    let Some(e) = filter else {
        return Ok(Some(None));
    };
    match condition_over(binder, e, scope, catalog, faults, alloc)? {
        Some(typed) => Ok(Some(Some(typed.tree))),
        None => Ok(None),
    }
}
