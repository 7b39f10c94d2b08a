// ALTER TABLE.
ghost use Rattle.std.specs.Prelude.{◌≡◌, List, [], ◌∷◌, ◌++◌, None, IfOk};
ghost use Rattle.std.specs.Option.{option_map, option_map_or};
ghost use Rattle.hs_elements.specs.Faults.{Text};
ghost use Rattle.hs_plan.specs.declared.definition.Column.{Column as PlanColumn};
ghost use Rattle.hs_schema.specs.Catalogue.{table_named};
ghost use Rattle.hs_outlines.specs.Elements.{elements_of};
ghost use Rattle.hs_tables.specs.Additions.{IsAdded, every_column};
ghost use Rattle.hs_tables.specs.Answers.{AnswersAction, AnswersAlter, AnswersNamed, FindsNamed};
ghost use Rattle.hs_tables.specs.Definitions as spec;

use crate::additions::{Before, Grown, added};
use hs_ast::{AlterAction, AlterTable, ColumnDefinition, Identifier, TableConstraint};
use hs_base::NoMemory;
use hs_binding::Binder;
use hs_drops::{answer, bind_drop_constraint, bind_no_table};
use hs_outlines::Elements;
use hs_plan::{BindFault, Constraint, Definition};
use hs_schema::{Catalog, Table};
use hs_typed::Faults;
use hs_values::Name;
use sqlite_items::Items;
use std::alloc::Global;

fn with_column(table: Name, made: Grown) -> Option<Definition>
    ensures { (before : List PlanColumn) (column : PlanColumn) → made.columns ≡ before ++ column ∷ [] → result ≡ option_map (Definition.AddColumn table column) made.constraints }
{
    let Grown {
        mut columns,
        constraints,
    } = made;
    let Some(column) = columns.pop() else {
        return None;
    };
    match constraints {
        Some(constraints) => Some(Definition::AddColumn {
            table,
            column,
            constraints,
        }),
        None => None,
    }
}

fn with_first(table: Name, constraints: Items<Constraint>) -> Option<Definition>
    ensures { result ≡ spec.with_first table constraints }
{
    let mut constraints = constraints;
    if constraints.len() == 0 {
        return None;
    }
    Some(Definition::AddConstraint {
        table,
        constraint: constraints.remove(0),
    })
}

fn with_constraint(table: Name, constraints: Option<Items<Constraint>>) -> Option<Definition>
    ensures { result ≡ option_map_or (spec.with_first table) constraints None }
{
    match constraints {
        Some(constraints) => with_first(table, constraints),
        None => None,
    }
}

// What a text adds to a table of the catalogue.
fn added_to<B: Binder>(
    binder: &B,
    catalog: &Catalog,
    name: &Identifier,
    t: &Table,
    elements: Elements<'_>,
    faults: &mut Faults,
    alloc: Global,
) -> Result<Grown, NoMemory>
    ensures columns { IfOk result (λ made. made.columns ≡ every_column (spec.base_of name.now t.now) (elements_of elements.entry)) }
    ensures constraints { IfOk result (λ made. (names : List Text) × IsAdded catalog.now name.now.at (spec.base_of name.now t.now) (elements_of elements.entry) names made.constraints faults.old faults.new) }
{
    let its = name.name.as_str();
    let columns = t.columns.as_slice();
    let constraints = t.constraints.as_slice();
    let before = Before {
        name: its,
        columns,
        constraints,
    };
    added(binder, catalog, name.at, &before, elements, faults, alloc)
}

// ADD COLUMN, with all that is wrong in it.
fn column_added<B: Binder>(
    binder: &B,
    catalog: &Catalog,
    name: &Identifier,
    c: &ColumnDefinition,
    t: &Table,
    faults: &mut Faults,
    alloc: Global,
) -> Result<Option<Definition>, NoMemory>
    ensures { FindsNamed catalog.now name.now.name (spec.by_column c.now) (spec.column_added catalog.now name.now c.now t.now) faults.old faults.new result }
{
    let made = added_to(binder, catalog, name, t, Elements::Column(c), faults, alloc)?;
    let table = Name::from_text(alloc, name.name.as_str())?;
    Ok(with_column(table, made))
}

// ADD of a constraint, with all that is wrong in it.
fn constraint_added<B: Binder>(
    binder: &B,
    catalog: &Catalog,
    name: &Identifier,
    k: &TableConstraint,
    t: &Table,
    faults: &mut Faults,
    alloc: Global,
) -> Result<Option<Definition>, NoMemory>
    ensures { FindsNamed catalog.now name.now.name (spec.by_constraint k.now) (spec.constraint_added catalog.now name.now k.now t.now) faults.old faults.new result }
{
    let made = added_to(
        binder,
        catalog,
        name,
        t,
        Elements::Constraint(k),
        faults,
        alloc,
    )?;
    let table = Name::from_text(alloc, name.name.as_str())?;
    Ok(with_constraint(table, made.constraints))
}

fn bind_column_added<B: Binder>(
    binder: &B,
    catalog: &Catalog,
    name: &Identifier,
    c: &ColumnDefinition,
    t: &Table,
    alloc: Global,
) -> Result<Definition, BindFault>
    ensures { AnswersNamed catalog.now name.now.name (spec.by_column c.now) (spec.column_added catalog.now name.now c.now t.now) result }
{
    let mut faults = Faults::new();
    let definition = column_added(binder, catalog, name, c, t, &mut faults, alloc)?;
    answer(faults, definition)
}

fn bind_constraint_added<B: Binder>(
    binder: &B,
    catalog: &Catalog,
    name: &Identifier,
    k: &TableConstraint,
    t: &Table,
    alloc: Global,
) -> Result<Definition, BindFault>
    ensures { AnswersNamed catalog.now name.now.name (spec.by_constraint k.now) (spec.constraint_added catalog.now name.now k.now t.now) result }
{
    let mut faults = Faults::new();
    let definition = constraint_added(binder, catalog, name, k, t, &mut faults, alloc)?;
    answer(faults, definition)
}

fn bind_add_column<B: Binder>(
    binder: &B,
    catalog: &Catalog,
    name: &Identifier,
    c: &ColumnDefinition,
    alloc: Global,
) -> Result<Definition, BindFault>
    ensures { AnswersAction catalog.now name.now (AlterAction.AddColumn c.now) (table_named catalog.now name.now.name) result }
{
    match catalog.table(name.name.as_str()) {
        Some(t) => bind_column_added(binder, catalog, name, c, t, alloc),
        None => bind_no_table(name, alloc),
    }
}

fn bind_add_constraint<B: Binder>(
    binder: &B,
    catalog: &Catalog,
    name: &Identifier,
    k: &TableConstraint,
    alloc: Global,
) -> Result<Definition, BindFault>
    ensures { AnswersAction catalog.now name.now (AlterAction.AddConstraint k.now) (table_named catalog.now name.now.name) result }
{
    match catalog.table(name.name.as_str()) {
        Some(t) => bind_constraint_added(binder, catalog, name, k, t, alloc),
        None => bind_no_table(name, alloc),
    }
}

/// What ALTER TABLE means over a catalogue. `NoSuch` of the table where that isn't there, which is then the only fault. Else the faults
/// of ADD are those of CREATE TABLE, over the table's own columns, keys and constraints too; and DROP CONSTRAINT is `NoSuch` where the
/// table has no constraint of the name, an index being none.
pub fn bind_alter_table<B: Binder>(
    binder: &B,
    catalog: &Catalog,
    a: &AlterTable,
    alloc: Global,
) -> Result<Definition, BindFault>
    ensures { AnswersAlter catalog.now a.now result }
{
    match &a.action {
        AlterAction::AddColumn(c) => bind_add_column(binder, catalog, &a.table, c, alloc),
        AlterAction::AddConstraint(k) => bind_add_constraint(binder, catalog, &a.table, k, alloc),
        AlterAction::DropConstraint(name) => bind_drop_constraint(catalog, &a.table, name, alloc),
    }
}
