// The answers to what stands in a statement: a query, a condition, a value, a CHECK.
ghost use Rattle.std.specs.Prelude.{◌≡◌, Option, IfOk};
ghost use Rattle.hs_meaning.specs.Statements as spec;
ghost use Rattle.hs_meaning.specs.Statements.{IsAnswer};
ghost use Rattle.hs_resolve.specs.Statements.{statement_query};
ghost use Rattle.hs_meaning.specs.Finding.{Finds};

use crate::expressions::{bind_condition, bind_expression};
use crate::queries::bind_query;
use hs_ast::{Expression, Query};
use hs_base::NoMemory;
use hs_columns::BoundQuery;
use hs_conclusions::assigned;
use hs_drops::answer;
use hs_meaning::{PlacedColumn, Surroundings};
use hs_plan::BindFault;
use hs_schema::Catalog;
use hs_scope::Scope;
use hs_typed::{Faults, Typed};
use hs_values::SqlType;
use sqlite_items::Items;
use std::alloc::Global;

/// A bound query that breaks no rule.
#[derive(Drop)]
pub struct StatementQuery {
    /// Its output columns, with the places of their items.
    pub columns: Items<PlacedColumn>,
    pub plan: hs_plan::Query,
}

fn whole(query: BoundQuery) -> Option<StatementQuery>
    ensures { result ≡ statement_query query.columns.items query.plan }
{
    let BoundQuery { columns, plan } = query;
    match plan {
        Some(plan) => Some(StatementQuery {
            columns: Items::from_vec(columns),
            plan,
        }),
        None => None,
    }
}

/// What a query means by itself over a catalogue. `NoSuch` where a table or a column isn't there; `Ambiguous` where a name may mean
/// several things, and where two tables of one FROM have the same name; `Types` where a rule of types is broken, at the smallest part
/// that breaks one by itself; `Count` where numbers of columns differ that must be equal. Of several faults that of the first class
/// is told, and in a class the leftmost. `NoMemory` is want of memory.
pub fn bound_query(
    query: &Query,
    catalog: &Catalog,
    alloc: Global,
) -> Result<StatementQuery, BindFault>
    ensures { let m = spec.query_meaning catalog.now query.now in IsAnswer m.faults (statement_query m.columns m.plan) result }
{
    let mut faults = Faults::new();
    let around = Surroundings::outermost();
    let bound = bind_query(query, &around, catalog, &mut faults, alloc)?;
    answer(faults, whole(bound))
}

/// What a condition means over the rows of tables, as that of WHERE in UPDATE and DELETE. The faults are those of `bound_query`;
/// a condition that is no BOOLEAN is `Types` at its own place.
pub fn bound_condition(
    e: &Expression,
    tables: &Scope,
    catalog: &Catalog,
    alloc: Global,
) -> Result<Typed, BindFault>
    ensures { let m = spec.condition_meaning catalog.now tables.now e.now in IsAnswer m.faults m.part result }
{
    let mut faults = Faults::new();
    let outside = Surroundings::outermost();
    let around = Surroundings::over_rows(tables, &outside);
    let bound = bind_condition(e, &around, catalog, &mut faults, alloc)?;
    answer(faults, bound)
}

/// What a value means that is assigned to a column of a type, over the rows of tables. The faults are those of `bound_query`; a value
/// that the column doesn't take is `Types` at its own place.
pub fn bound_value(
    e: &Expression,
    tables: &Scope,
    column: &SqlType,
    catalog: &Catalog,
    alloc: Global,
) -> Result<Typed, BindFault>
    ensures { let m = spec.value_meaning catalog.now tables.now column.now e.now in IsAnswer m.faults m.part result }
{
    let mut faults = Faults::new();
    let outside = Surroundings::outermost();
    let around = Surroundings::over_rows(tables, &outside);
    let bound = bind_expression(e, &around, catalog, &mut faults, alloc)?;
    let bound = assigned(e.at, column, bound, &mut faults);
    answer(faults, bound)
}

/// What a CHECK means over the rows of its table. A query in it is `Types` at the query, and isn't looked into; the other faults are
/// those of `bound_condition`.
pub fn bound_check(e: &Expression, tables: &Scope, alloc: Global) -> Result<Typed, BindFault>
    ensures { let m = spec.check_meaning tables.now e.now in IsAnswer m.faults m.part result }
{
    let mut faults = Faults::new();
    let catalog = Catalog::new(alloc);
    let outside = Surroundings::outermost();
    let rows = Surroundings::over_rows(tables, &outside);
    let bound = bind_condition(e, &rows.in_check(), &catalog, &mut faults, alloc)?;
    answer(faults, bound)
}
