// Bodies of queries from their bound parts. What is large is put into a box, so that queries in queries need little stack.
ghost use Rattle.std.specs.Prelude.{◌≡◌, ◌||◌, ◌++◌, not, map, option_map, true, false, IfOk, OnOk, None};
ghost use Rattle.hs_clauses.specs.declared.bound.KeysOver.TheVariants as over;
ghost use Rattle.hs_meaning.specs.Expressions.{kinds_of};
ghost use Rattle.hs_meaning.specs.Parts.{with_part};
ghost use Rattle.hs_meaning.specs.Queries as queries;
ghost use Rattle.hs_meaning.specs.Selects as selects;
ghost use Rattle.hs_meaning.specs.Trees.{row_of};
ghost use Rattle.hs_typed.specs.Faults.{noted};

use crate::over;
use hs_ast::{Limit, SetOperator, ValuesRow};
use hs_base::NoMemory;
use hs_clauses::{BoundBody, BoundElement, BoundFrom, BoundRows, SelectParts};
use hs_columns::{BoundQuery, with_part};
use hs_meaning::Shown;
use hs_plan::{FromItem, SortKey};
use hs_schema::Catalog;
use hs_scope::Scope;
use hs_typed::{Faults, Typed};
use sqlite_items::{Boxed, Items};
use std::alloc::Global;

/// A SELECT from its bound parts. Its keys of ORDER BY see the rows of its tables. An `Err` is want of memory.
pub(crate) fn selected(
    distinct: bool,
    grouped: bool,
    from: Boxed<BoundFrom>,
    condition: Option<Option<Typed>>,
    group_by: Option<Vec<Typed>>,
    having: Option<Option<Typed>>,
    shown: Vec<Shown>,
    alloc: Global,
) -> Result<Boxed<BoundBody>, NoMemory>
    ensures columns { IfOk result (λ b. b.columns.items ≡ selects.columns_of shown.items) }
    ensures plan { IfOk result (λ b. b.plan ≡ selects.plan_by distinct grouped (selects.trees_of shown.items) from.items condition (option_map (λ v. v.items) group_by) having) }
    ensures plain { IfOk result (λ b. b.plain ≡ not (distinct || grouped)) }
    ensures over { IfOk result (λ b. b.over ≡ over.Rows from.tables) }
{
    let parts = SelectParts {
        distinct,
        grouped,
        from: from.into_inner(),
        condition,
        group_by,
        having,
        shown,
    };
    let body = hs_clauses::select_body(parts, alloc)?;
    Ok(Boxed::new(alloc, body)?)
}

/// VALUES from all its rows, which have equal numbers of values. An `Err` is want of memory.
pub(crate) fn even_values(rows: BoundRows, alloc: Global) -> Result<Boxed<BoundBody>, NoMemory>
    ensures columns { IfOk result (λ b. b.columns.items ≡ rows.columns.items) }
    ensures plan { IfOk result (λ b. b.plan ≡ queries.values_by (kinds_of rows.columns.items) rows.rows) }
    ensures plain { IfOk result (λ b. b.plain ≡ true) }
    ensures over { IfOk result (λ b. b.over ≡ over.Values) }
{
    let body = hs_clauses::even_values(rows, alloc)?;
    Ok(Boxed::new(alloc, body)?)
}

/// VALUES whose rows have different numbers of values. An `Err` is want of memory.
pub(crate) fn uneven_values(
    rows: &[ValuesRow],
    catalog: &Catalog,
    alloc: Global,
) -> Result<Boxed<BoundBody>, NoMemory>
    ensures columns { IfOk result (λ b. b.columns.items ≡ queries.unknown (queries.above (map (row_of catalog.now) rows.now))) }
    ensures plan { IfOk result (λ b. b.plan ≡ None) }
    ensures plain { IfOk result (λ b. b.plain ≡ true) }
    ensures over { IfOk result (λ b. b.over ≡ over.Values) }
{
    let body = over::uneven_values(rows, catalog, alloc)?;
    Ok(Boxed::new(alloc, body)?)
}

/// A set operation from its sides. What the sides break together is noted. An `Err` is want of memory.
pub(crate) fn set_operation(
    operator: SetOperator,
    left: Boxed<BoundBody>,
    right: Boxed<BoundBody>,
    faults: &mut Faults,
    alloc: Global,
) -> Result<Boxed<BoundBody>, NoMemory>
    ensures columns { IfOk result (λ b. b.columns.items ≡ (queries.sides operator left.columns.items left.plan right.columns.items right.plan).columns) }
    ensures plan { IfOk result (λ b. b.plan ≡ (queries.sides operator left.columns.items left.plan right.columns.items right.plan).plan) }
    ensures plain { IfOk result (λ b. b.plain ≡ false) }
    ensures over { IfOk result (λ b. b.over ≡ over.Sides) }
    ensures noted { OnOk result (faults.new ≡ noted faults.old (queries.sides operator left.columns.items left.plan right.columns.items right.plan).faults) }
{
    let (left, right) = (left.into_inner(), right.into_inner());
    let body = hs_clauses::set_operation(operator, left, right, faults, alloc)?;
    Ok(Boxed::new(alloc, body)?)
}

/// A query from its bound body and its bound keys of ORDER BY.
pub(crate) fn query_with(
    body: Boxed<BoundBody>,
    keys: Option<Items<SortKey>>,
    limit: Option<Limit>,
) -> BoundQuery
    ensures columns { result.columns.items ≡ body.columns.items }
    ensures plan { result.plan ≡ queries.query_by body.plan keys limit }
{
    hs_clauses::query_with(body.into_inner(), keys, limit)
}

/// Puts the tables of an element of FROM behind those before it, and its plan behind theirs, where all are known. An `Err` is want
/// of memory.
pub(crate) fn append(
    tables: &mut Scope,
    items: Option<Items<FromItem>>,
    element: Boxed<BoundElement>,
    alloc: Global,
) -> Result<Option<Items<FromItem>>, NoMemory>
    ensures tables { OnOk result (tables.new ≡ tables.old ++ element.tables) }
    ensures items { IfOk result (λ made. made ≡ with_part items element.item) }
{
    let element = element.into_inner();
    tables.append(alloc, element.tables)?;
    with_part(items, element.item)
}
