// VALUES.
ghost use Rattle.std.specs.Prelude.{◌≡◌, map, OnOk};
ghost use Rattle.std.specs.List.{flat_map};
ghost use Rattle.hs_clauses.specs.Bound.{FindsBody, FindsShown};
ghost use Rattle.hs_meaning.specs.Queries as spec;
ghost use Rattle.hs_meaning.specs.Surroundings.{in_values};
ghost use Rattle.hs_meaning.specs.Trees.{part_of, row_of};
ghost use Rattle.hs_resolve.specs.Bound.{FindsBelow};
ghost use Rattle.hs_meaning.specs.Around.{seen};
ghost use Rattle.hs_typed.specs.Faults.{noted};

use crate::bodies::{even_values, uneven_values};
use crate::expressions::bind_expression;
use crate::over::{are_even, no_rows};
use hs_ast::{Expression, ValuesRow};
use hs_base::NoMemory;
use hs_clauses::{BoundBody, BoundRows, add_row};
use hs_columns::note_uneven;
use hs_meaning::{Shown, Surroundings};
use hs_schema::Catalog;
use hs_typed::Faults;
use sqlite_items::Boxed;
use std::alloc::Global;

/// What VALUES means. Rows with different numbers of values are noted as a fault of number, and then no two values of a column
/// are held against each other. An `Err` is want of memory.
#[cycle(binding)]
pub(crate) fn bind_values(
    rows: &[ValuesRow],
    around: &Surroundings<'_>,
    catalog: &Catalog,
    faults: &mut Faults,
    alloc: Global,
) -> Result<Boxed<BoundBody>, NoMemory>
    ensures { FindsBody (spec.values_meaning (map (row_of catalog.now) rows.now) (in_values (seen around.now))) (seen around.now) faults.old faults.new result }
{
    let inside = around.in_values();
    if are_even(rows, catalog) {
        let above = no_rows(rows, catalog, alloc)?;
        let bound = bind_rows(rows, above, &inside, catalog, faults, alloc)?;
        return even_values(bound, alloc);
    }
    note_uneven(faults);
    note_rows(rows, &inside, catalog, faults, alloc)?;
    uneven_values(rows, catalog, alloc)
}

/// Rows below others. An `Err` is want of memory.
#[cycle(binding)]
fn bind_rows(
    rows: &[ValuesRow],
    above: BoundRows,
    around: &Surroundings<'_>,
    catalog: &Catalog,
    faults: &mut Faults,
    alloc: Global,
) -> Result<BoundRows, NoMemory>
    ensures { FindsBelow (spec.rows_below (seen around.now) above.columns.items (map (row_of catalog.now) rows.now)) above.rows faults.old faults.new result }
{
    let mut bound = above;
    for row in rows {
        let shown = bind_row(row.values.as_slice(), around, catalog, faults, alloc)?;
        bound = add_row(bound, shown, faults, alloc)?;
    }
    Ok(bound)
}

/// Notes the faults of rows, each by itself. An `Err` is want of memory.
#[cycle(binding)]
fn note_rows(
    rows: &[ValuesRow],
    around: &Surroundings<'_>,
    catalog: &Catalog,
    faults: &mut Faults,
    alloc: Global,
) -> Result<(), NoMemory>
    ensures { OnOk result (faults.new ≡ noted faults.old (flat_map (λ row. (spec.row_in (seen around.now) row).faults) (map (row_of catalog.now) rows.now))) }
{
    for row in rows {
        bind_row(row.values.as_slice(), around, catalog, faults, alloc)?;
    }
    Ok(())
}

/// What the values of a row mean, each at its place. An `Err` is want of memory.
#[cycle(binding)]
fn bind_row(
    values: &[Expression],
    around: &Surroundings<'_>,
    catalog: &Catalog,
    faults: &mut Faults,
    alloc: Global,
) -> Result<Vec<Shown>, NoMemory>
    ensures { FindsShown (spec.row_in (seen around.now) (map (part_of catalog.now) values.now)) faults.old faults.new result }
{
    let mut shown = Vec::new(alloc);
    for e in values {
        let part = bind_expression(e, around, catalog, faults, alloc)?;
        shown.push(Shown {
            at: e.at,
            name: None,
            part,
        })?;
    }
    Ok(shown)
}
