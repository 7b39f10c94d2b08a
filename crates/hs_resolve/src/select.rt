// SELECT.
ghost use Rattle.std.specs.Prelude.{◌≡◌, ◌++◌, map, option_map, OnOk};
ghost use Rattle.hs_clauses.specs.Bound.{FindsBody, FindsShown};
ghost use Rattle.hs_meaning.specs.Selects as spec;
ghost use Rattle.hs_meaning.specs.Trees.{item_of, layer_of, part_of, select_of};
ghost use Rattle.hs_meaning.specs.Around.{seen};
ghost use Rattle.hs_meaning.specs.Finding.{Finds};
ghost use Rattle.hs_typed.specs.Faults.{noted};

use crate::bodies::selected;
use crate::expressions::{bind_condition, bind_expression};
use crate::from::bind_from;
use crate::lists::bind_all;
use crate::operands::{lent, written};
use crate::over::{groups_of, one_item};
use hs_ast::{Expression, Select, SelectItem};
use hs_base::NoMemory;
use hs_clauses::{BoundBody, BoundFrom, show_every};
use hs_grouping::is_grouped;
use hs_meaning::{Shown, Surroundings};
use hs_schema::Catalog;
use hs_typed::{Faults, Typed};
use sqlite_items::Boxed;
use std::alloc::Global;

/// What a SELECT means. An `Err` is want of memory.
#[cycle(binding)]
pub(crate) fn bind_select(
    select: &Select,
    around: &Surroundings<'_>,
    catalog: &Catalog,
    faults: &mut Faults,
    alloc: Global,
) -> Result<Boxed<BoundBody>, NoMemory>
    ensures { FindsBody (select_of catalog.now select.now (seen around.now)) (seen around.now) faults.old faults.new result }
{
    let from = bind_from(select.from.as_slice(), around, catalog, faults, alloc)?;
    bind_over(select, from, around, catalog, faults, alloc)
}

/// What a SELECT means over its bound FROM. WHERE and GROUP BY are over the rows of FROM, HAVING and the items over its groups.
/// An `Err` is want of memory.
#[cycle(binding)]
fn bind_over(
    select: &Select,
    from: Boxed<BoundFrom>,
    around: &Surroundings<'_>,
    catalog: &Catalog,
    faults: &mut Faults,
    alloc: Global,
) -> Result<Boxed<BoundBody>, NoMemory>
    ensures { FindsBody (spec.select_over (layer_of catalog.now select.now) (seen around.now) from.tables from.items) (seen around.now) faults.old faults.new result }
{
    let grouped = is_grouped(select, catalog);
    let places = groups_of(
        select.group_by.as_slice(),
        grouped,
        &from.get().tables,
        catalog,
        alloc,
    )?;
    let rows = Surroundings::over_rows(&from.get().tables, &*around);
    let groups = Surroundings::over_groups(&from.get().tables, lent(&places), &*around);
    let condition = bind_if_written(&select.filter, &rows, catalog, faults, alloc)?;
    let group_by = bind_all(select.group_by.as_slice(), &rows, catalog, faults, alloc)?;
    let having = bind_if_written(&select.having, &groups, catalog, faults, alloc)?;
    let shown = bind_items(select.items.as_slice(), &groups, catalog, faults, alloc)?;
    selected(
        select.distinct,
        grouped,
        from,
        condition,
        group_by,
        having,
        shown,
        alloc,
    )
}

/// What WHERE or HAVING means, where it is written. An `Err` is want of memory.
#[cycle(binding)]
fn bind_if_written(
    e: &Option<Boxed<Expression>>,
    around: &Surroundings<'_>,
    catalog: &Catalog,
    faults: &mut Faults,
    alloc: Global,
) -> Result<Option<Option<Typed>>, NoMemory>
    ensures { Finds (spec.condition_in (seen around.now) (option_map (part_of catalog.now) e.now)) faults.old faults.new result }
{
    match e {
        Some(e) => {
            let part = bind_condition(e.get(), around, catalog, faults, alloc)?;
            Ok(written(part))
        }
        None => Ok(Some(None)),
    }
}

/// What items mean, one after another. An `Err` is want of memory.
#[cycle(binding)]
fn bind_items(
    items: &[SelectItem],
    around: &Surroundings<'_>,
    catalog: &Catalog,
    faults: &mut Faults,
    alloc: Global,
) -> Result<Vec<Shown>, NoMemory>
    ensures { FindsShown (spec.items_in (seen around.now) (map (item_of catalog.now) items.now)) faults.old faults.new result }
{
    let mut shown = Vec::new(alloc);
    for item in items {
        bind_item(item, around, catalog, &mut shown, faults, alloc)?;
    }
    Ok(shown)
}

/// Puts what an item shows behind what is shown before. An `Err` is want of memory.
#[cycle(binding)]
fn bind_item(
    item: &SelectItem,
    around: &Surroundings<'_>,
    catalog: &Catalog,
    shown: &mut Vec<Shown>,
    faults: &mut Faults,
    alloc: Global,
) -> Result<(), NoMemory>
    ensures shown { OnOk result (shown.new.items ≡ shown.old.items ++ ((item_of catalog.now item.now).item (seen around.now)).shown) }
    ensures noted { OnOk result (faults.new ≡ noted faults.old ((item_of catalog.now item.now).item (seen around.now)).faults) }
{
    match item {
        SelectItem::Every(at) => show_every(*at, around, shown, faults),
        SelectItem::One { at, value, alias } => {
            let part = bind_expression(value, around, catalog, faults, alloc)?;
            shown.push(one_item(*at, value, alias, part, catalog, alloc)?)?;
            Ok(())
        }
    }
}
