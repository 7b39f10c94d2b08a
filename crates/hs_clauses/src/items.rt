// Items of SELECT.
ghost use Rattle.std.specs.Prelude.{◌≡◌, ◌+◌, ◌<◌, ◌^◌, ◌++◌, length, IfOk, OnOk};
ghost use Rattle.std.specs.List.{enumerate_from};
ghost use Rattle.hs_meaning.specs.Selects as spec;
ghost use Rattle.hs_meaning.specs.Trees.{part_of};
ghost use Rattle.hs_scope.specs.Names.{every_column};
ghost use Rattle.hs_schema.specs.Catalogue.{Things};
ghost use Rattle.hs_meaning.specs.Around.{seen};
ghost use Rattle.hs_typed.specs.Faults.{noted};

use hs_ast::{Expression, Identifier};
use hs_base::NoMemory;
use hs_meaning::{Shown, Surroundings, column_at};
use hs_scope::{FromTable, OutputColumn, Scopes, output_name};
use hs_typed::{Faults, Typed};
use std::alloc::Global;

// A column of `*`, with its place among all.
fn star(
    at: u32,
    column: &OutputColumn,
    place: u32,
    around: &Surroundings<'_>,
    faults: &mut Faults,
) -> Result<Shown, NoMemory>
    ensures shown { IfOk result (λ x. x ≡ spec.shown_star at (seen around.now) (place, column.now)) }
    ensures noted { OnOk result (faults.new ≡ noted faults.old (spec.star at (seen around.now) (place, column.now)).faults) }
{
    let copied = column.copy()?;
    let part = column_at(at, around, 0, place, column.kind, faults);
    Ok(Shown {
        at,
        name: copied.name,
        part,
    })
}

// The columns of one table, of which the first has the place `first` among all.
fn show_columns(
    at: u32,
    columns: &[OutputColumn],
    first: u32,
    around: &Surroundings<'_>,
    shown: &mut Vec<Shown>,
    faults: &mut Faults,
) -> Result<(), NoMemory>
    requires { first + length columns.now < 2 ^ 32 }
    ensures shown { OnOk result (shown.new.items ≡ shown.old.items ++ (spec.stars at (seen around.now) (enumerate_from first columns.now)).shown) }
    ensures noted { OnOk result (faults.new ≡ noted faults.old (spec.stars at (seen around.now) (enumerate_from first columns.now)).faults) }
{
    let mut place = first;
    for column in columns {
        shown.push(star(at, column, place, around, faults)?)?;
        place += 1;
    }
    Ok(())
}

// The place behind the columns of a table. An `Err` is want of memory: there are more than can be counted.
fn place_behind(first: u32, columns: usize) -> Result<u32, NoMemory>
    ensures { IfOk result (λ place. place ≡ first + columns) }
{
    let Ok(columns) = u32::try_from(columns) else {
        return Err(NoMemory);
    };
    match first.checked_add(columns) {
        Some(place) => Ok(place),
        None => Err(NoMemory),
    }
}

fn show_tables(
    at: u32,
    tables: &[FromTable],
    around: &Surroundings<'_>,
    shown: &mut Vec<Shown>,
    faults: &mut Faults,
) -> Result<(), NoMemory>
    ensures shown { OnOk result (shown.new.items ≡ shown.old.items ++ (spec.stars at (seen around.now) (enumerate_from 0 (every_column tables.now))).shown) }
    ensures noted { OnOk result (faults.new ≡ noted faults.old (spec.stars at (seen around.now) (enumerate_from 0 (every_column tables.now))).faults) }
{
    let mut place: u32 = 0;
    for table in tables {
        let columns = table.columns.as_slice();
        let behind = place_behind(place, columns.len())?;
        show_columns(at, columns, place, around, shown, faults)?;
        place = behind;
    }
    Ok(())
}

/// `*`, which is written at byte `at`: all columns of the own FROM in order, each a fault of types at the `*` where it may not
/// stand there. They are put behind what is shown before. An `Err` is want of memory.
pub fn show_every(
    at: u32,
    around: &Surroundings<'_>,
    shown: &mut Vec<Shown>,
    faults: &mut Faults,
) -> Result<(), NoMemory>
    ensures shown { OnOk result (shown.new.items ≡ shown.old.items ++ (spec.every_meaning at (seen around.now)).shown) }
    ensures noted { OnOk result (faults.new ≡ noted faults.old (spec.every_meaning at (seen around.now)).faults) }
{
    match around.scopes {
        Scopes::Outermost => Ok(()),
        Scopes::Inside(scope, _) => show_tables(at, scope.tables(), around, shown, faults),
    }
}

/// An item whose value is bound, with its output name: its alias, else its column's name, else none. An `Err` is want of
/// memory.
pub fn one_item(
    at: u32,
    value: &Expression,
    alias: &Option<Identifier>,
    part: Option<Typed>,
    alloc: Global,
) -> Result<Shown, NoMemory>
    ensures { (things : Things) → IfOk result (λ x. x ≡ record { at = at; name = spec.name_by (part_of things value.now).form.column alias.now; part = part }) }
{
    let name = output_name(alloc, value, alias)?;
    Ok(Shown { at, name, part })
}
