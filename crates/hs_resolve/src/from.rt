// FROM: its elements, the tables joined to each, and ON.
ghost use Rattle.std.specs.Prelude.{◌≡◌, [], map, IfOk, OnOk};
ghost use Rattle.hs_clauses.specs.Bound.{FindsElement, FindsFrom};
ghost use Rattle.hs_meaning.specs.Expressions.{condition};
ghost use Rattle.hs_meaning.specs.From as spec;
ghost use Rattle.hs_meaning.specs.Parts.{known};
ghost use Rattle.hs_meaning.specs.Surroundings.{over_rows};
ghost use Rattle.hs_meaning.specs.Trees.{element_of, join_of, part_of, table_of};
ghost use Rattle.hs_meaning.specs.Around.{seen};
ghost use Rattle.hs_meaning.specs.Finding.{Finds};
ghost use Rattle.hs_typed.specs.Faults.{noted};

use crate::bodies::append;
use crate::entering::enter;
use crate::expressions::bind_condition;
use crate::queries::bind_query;
use hs_ast::{Expression, FromItem, Join, TableReference};
use hs_base::NoMemory;
use hs_clauses::{
    BoundElement, BoundFrom, cross_join, derived_table, from_item, inner_join, left_join,
    named_table, shown_name,
};
use hs_columns::with_part;
use hs_meaning::Surroundings;
use hs_plan::Source;
use hs_schema::Catalog;
use hs_scope::Scope;
use hs_typed::{Faults, Typed};
use sqlite_items::{Boxed, Items};
use std::alloc::Global;

/// What a FROM means: its tables from the left, and its elements, which are known where all are. An `Err` is want of memory.
#[cycle(binding)]
pub(crate) fn bind_from(
    items: &[FromItem],
    around: &Surroundings<'_>,
    catalog: &Catalog,
    faults: &mut Faults,
    alloc: Global,
) -> Result<Boxed<BoundFrom>, NoMemory>
    ensures { FindsFrom (spec.elements (seen around.now) [] (map (element_of catalog.now) items.now)) faults.old faults.new result }
{
    let mut tables = Scope::new(alloc);
    let mut bound = Some(Items::new(alloc));
    for item in items {
        let one = bind_element(item, &tables, around, catalog, faults, alloc)?;
        bound = append(&mut tables, bound, one, alloc)?;
    }
    let from = BoundFrom {
        tables,
        items: bound,
    };
    Ok(Boxed::new(alloc, from)?)
}

/// What an element means behind these tables. An `Err` is want of memory.
#[cycle(binding)]
fn bind_element(
    item: &FromItem,
    before: &Scope,
    around: &Surroundings<'_>,
    catalog: &Catalog,
    faults: &mut Faults,
    alloc: Global,
) -> Result<Boxed<BoundElement>, NoMemory>
    ensures { FindsElement (spec.element (seen around.now) before.now (element_of catalog.now item.now)) faults.old faults.new result }
{
    let mut own = Scope::new(alloc);
    let source = bind_table(
        &item.table,
        before,
        &mut own,
        around,
        catalog,
        faults,
        alloc,
    )?;
    let joins = bind_joins(
        item.joins.as_slice(),
        before,
        &mut own,
        around,
        catalog,
        faults,
        alloc,
    )?;
    let element = BoundElement {
        tables: own,
        item: from_item(source, joins),
    };
    Ok(Boxed::new(alloc, element)?)
}

/// Puts a table behind those of its own element, and gives where its rows come from. A query in FROM doesn't see the tables beside
/// it. A table of its name before it is noted. An `Err` is want of memory.
#[cycle(binding)]
fn bind_table(
    table: &TableReference,
    before: &Scope,
    own: &mut Scope,
    around: &Surroundings<'_>,
    catalog: &Catalog,
    faults: &mut Faults,
    alloc: Global,
) -> Result<Option<Source>, NoMemory>
    ensures source { IfOk result (λ source. source ≡ ((table_of catalog.now table.now).table (seen around.now)).source) }
    ensures own { OnOk result (own.new ≡ spec.entered (seen around.now) own.old (table_of catalog.now table.now)) }
    ensures noted { OnOk result (faults.new ≡ noted faults.old (spec.entry_faults (seen around.now) before.now own.old (table_of catalog.now table.now))) }
{
    match table {
        TableReference::Named { name, alias } => {
            let bound = named_table(name, alias, catalog, faults, alloc)?;
            enter(bound, shown_name(name, alias), before, own, faults, alloc)
        }
        TableReference::Derived { query, alias } => {
            let query = bind_query(query.get(), around, catalog, faults, alloc)?;
            let bound = derived_table(query, alias, alloc)?;
            enter(bound, alias, before, own, faults, alloc)
        }
    }
}

/// The tables joined to others of their element, put behind them, and the joins, which are known where all are. An `Err` is want
/// of memory.
#[cycle(binding)]
fn bind_joins(
    joins: &[Join],
    before: &Scope,
    own: &mut Scope,
    around: &Surroundings<'_>,
    catalog: &Catalog,
    faults: &mut Faults,
    alloc: Global,
) -> Result<Option<Items<hs_plan::Join>>, NoMemory>
    ensures joins { IfOk result (λ made. made ≡ known (spec.joined (seen around.now) before.now own.old (map (join_of catalog.now) joins.now)).joins) }
    ensures own { OnOk result (own.new ≡ (spec.joined (seen around.now) before.now own.old (map (join_of catalog.now) joins.now)).tables) }
    ensures noted { OnOk result (faults.new ≡ noted faults.old (spec.joined (seen around.now) before.now own.old (map (join_of catalog.now) joins.now)).faults) }
{
    let mut bound = Some(Items::new(alloc));
    for join in joins {
        let one = bind_join(join, before, own, around, catalog, faults, alloc)?;
        bound = with_part(bound, one)?;
    }
    Ok(bound)
}

/// One join. Its ON sees the tables of its element up to its own. An `Err` is want of memory.
#[cycle(binding)]
fn bind_join(
    join: &Join,
    before: &Scope,
    own: &mut Scope,
    around: &Surroundings<'_>,
    catalog: &Catalog,
    faults: &mut Faults,
    alloc: Global,
) -> Result<Option<hs_plan::Join>, NoMemory>
    ensures join { IfOk result (λ made. made ≡ (spec.on_of (seen around.now) own.old (join_of catalog.now join.now)).part) }
    ensures own { OnOk result (own.new ≡ spec.entered (seen around.now) own.old (join_of catalog.now join.now).table) }
    ensures noted { OnOk result (faults.new ≡ noted (noted faults.old (spec.entry_faults (seen around.now) before.now own.old (join_of catalog.now join.now).table)) (spec.on_of (seen around.now) own.old (join_of catalog.now join.now)).faults) }
{
    match join {
        Join::Inner(table, on) => {
            let source = bind_table(table, before, own, around, catalog, faults, alloc)?;
            let on = bind_on(on, own, around, catalog, faults, alloc)?;
            Ok(inner_join(source, on))
        }
        Join::Left(table, on) => {
            let source = bind_table(table, before, own, around, catalog, faults, alloc)?;
            let on = bind_on(on, own, around, catalog, faults, alloc)?;
            Ok(left_join(source, on))
        }
        Join::Cross(table) => {
            let source = bind_table(table, before, own, around, catalog, faults, alloc)?;
            Ok(cross_join(source))
        }
    }
}

/// ON, over the rows of tables. An `Err` is want of memory.
#[cycle(binding)]
fn bind_on(
    on: &Expression,
    own: &Scope,
    around: &Surroundings<'_>,
    catalog: &Catalog,
    faults: &mut Faults,
    alloc: Global,
) -> Result<Option<Typed>, NoMemory>
    ensures { Finds (condition (over_rows own.now (seen around.now)) (part_of catalog.now on.now)) faults.old faults.new result }
{
    let rows = Surroundings::over_rows(own, &*around);
    bind_condition(on, &rows, catalog, faults, alloc)
}
