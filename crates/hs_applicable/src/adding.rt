// What a definition adds, and to which table.
ghost use Rattle.std.specs.Prelude.{◌≡◌, length, slice_get};
ghost use Rattle.std.specs.Option.{option_copied};
ghost use Rattle.hs_applicable.specs.Columns.{seen};
ghost use Rattle.hs_language.specs.Added as spec;

use hs_plan::{Column, Constraint, Definition};
use hs_schema::Catalog;
use std::slice::from_ref;

// ---- what it adds

pub(crate) fn columns_added(definition: &Definition) -> &[Column]
    ensures { result.now ≡ spec.columns_added definition.now }
{
    match definition {
        Definition::CreateTable { columns, .. } => columns.as_slice(),
        Definition::AddColumn { column, .. } => from_ref(column),
        Definition::DropTable(_) => &[],
        Definition::AddConstraint { .. } => &[],
        Definition::DropConstraint { .. } => &[],
        Definition::CreateIndex { .. } => &[],
        Definition::DropIndex(_) => &[],
        Definition::SetControl(_) => &[],
        Definition::SetDefaultLevel { .. } => &[],
    }
}

pub(crate) fn constraints_added(definition: &Definition) -> &[Constraint]
    ensures { result.now ≡ spec.constraints_added definition.now }
{
    match definition {
        Definition::CreateTable { constraints, .. } => constraints.as_slice(),
        Definition::AddColumn { constraints, .. } => constraints.as_slice(),
        Definition::AddConstraint { constraint, .. } => from_ref(constraint),
        Definition::DropTable(_) => &[],
        Definition::DropConstraint { .. } => &[],
        Definition::CreateIndex { .. } => &[],
        Definition::DropIndex(_) => &[],
        Definition::SetControl(_) => &[],
        Definition::SetDefaultLevel { .. } => &[],
    }
}

/// How many constraints and indexes these are.
pub(crate) fn count_parts(definition: &Definition) -> usize
    ensures { result ≡ length (spec.parts_added definition.now) }
{
    match definition {
        Definition::CreateTable { constraints, .. } => constraints.len(),
        Definition::AddColumn { constraints, .. } => constraints.len(),
        Definition::AddConstraint { .. } => 1,
        Definition::CreateIndex { .. } => 1,
        Definition::DropTable(_) => 0,
        Definition::DropConstraint { .. } => 0,
        Definition::DropIndex(_) => 0,
        Definition::SetControl(_) => 0,
        Definition::SetDefaultLevel { .. } => 0,
    }
}

// ---- to which table

/// The name of the table to which it adds them, which it may make.
pub(crate) fn table_of(definition: &Definition) -> &str
    ensures { result.now ≡ spec.table_of definition.now }
{
    match definition {
        Definition::CreateTable { name, .. } => name.as_str(),
        Definition::AddColumn { table, .. } => table.as_str(),
        Definition::AddConstraint { table, .. } => table.as_str(),
        Definition::CreateIndex { table, .. } => table.as_str(),
        Definition::DropTable(_) => "",
        Definition::DropConstraint { .. } => "",
        Definition::DropIndex(_) => "",
        Definition::SetControl(_) => "",
        Definition::SetDefaultLevel { .. } => "",
    }
}

/// Whether it adds columns or constraints to the table of this name.
pub(crate) fn adds_to(definition: &Definition, table: &str) -> bool
    ensures { result ≡ spec.adds_to definition.now table.now }
{
    match definition {
        Definition::CreateTable { name, .. } => table == name.as_str(),
        Definition::AddColumn { table: name, .. } => table == name.as_str(),
        Definition::AddConstraint { table: name, .. } => table == name.as_str(),
        Definition::DropTable(_) => false,
        Definition::DropConstraint { .. } => false,
        Definition::CreateIndex { .. } => false,
        Definition::DropIndex(_) => false,
        Definition::SetControl(_) => false,
        Definition::SetDefaultLevel { .. } => false,
    }
}

// ---- the table of a name, as it is

/// Its columns, none where it isn't there.
pub(crate) fn columns_named<'a>(cat: &'a Catalog, name: &str) -> &'a [Column]
    ensures { result.now ≡ spec.columns_named cat.now name.now }
{
    match cat.table(name) {
        Some(table) => table.columns.as_slice(),
        None => &[],
    }
}

/// Its constraints and indexes, none where it isn't there.
pub(crate) fn constraints_named<'a>(cat: &'a Catalog, name: &str) -> &'a [Constraint]
    ensures { result.now ≡ spec.constraints_named cat.now name.now }
{
    match cat.table(name) {
        Some(table) => table.constraints.as_slice(),
        None => &[],
    }
}

// ---- columns that stand behind others

/// The columns of a table: those that it has, and those that a definition adds.
#[derive(Drop)]
pub(crate) struct Columns<'a> {
    pub before: &'a [Column],
    pub more: &'a [Column],
}

/// The columns of the table of this name, with what a definition adds to it.
pub(crate) fn columns_seen<'a>(
    cat: &'a Catalog,
    definition: &'a Definition,
    name: &str,
) -> Columns<'a>
    ensures { seen result ≡ spec.columns_seen cat.now definition.now name.now }
{
    Columns {
        before: columns_named(cat, name),
        more: if adds_to(definition, name) {
            columns_added(definition)
        } else {
            &[]
        },
    }
}

/// The columns of the table to which a definition adds.
pub(crate) fn columns_behind<'a>(cat: &'a Catalog, definition: &'a Definition) -> Columns<'a>
    ensures { seen result ≡ spec.columns_behind cat.now definition.now }
{
    Columns {
        before: columns_named(cat, table_of(definition)),
        more: columns_added(definition),
    }
}

/// How many columns these are.
pub(crate) fn count(columns: &Columns<'_>) -> usize
    ensures { result ≡ length (seen columns.now) }
{
    columns.before.len() + columns.more.len()
}

/// The column at a place.
pub(crate) fn column_at<'a>(columns: &Columns<'a>, place: u32) -> Option<&'a Column>
    ensures { option_copied result ≡ slice_get (seen columns.now) place }
{
    let place = place as usize;
    let behind = columns.before.len();
    if place < behind {
        columns.before.get(place)
    } else {
        columns.more.get(place - behind)
    }
}
