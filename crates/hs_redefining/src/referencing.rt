// Foreign keys that reference what a definition drops.
ghost use Rattle.std.specs.Prelude.{◌≡◌, None, Some, IfOk, if◌then◌else◌};
ghost use Rattle.std.specs.Option.{option_map_or};
ghost use Rattle.hs_language.specs.Definitions as language;
ghost use Rattle.hs_schema.specs.Catalogue as schema;
ghost use Rattle.hs_redefining.specs.Dropped.{name_in, rule_test, test_of};

use crate::keys::key_over;
use crate::tables::number_of;
use hs_base::{NoMemory, TableNo};
use hs_plan::{Constraint, Definition, ForeignKey, Rule};
use hs_schema::{Catalog, Part, Table, Thing};
use hs_values::Name;

// What is dropped that a foreign key may reference.
#[derive(Drop)]
pub(crate) enum Dropped<'a> {
    // A table, by its number and its name. It may reference itself.
    Table(TableNo, &'a str),
    // What has this place among the constraints of a table.
    Key(&'a Table, u64),
}

fn is_at(place: u64, found: Option<usize>) -> bool
    ensures { result ≡ language.is_at place found }
{
    match found {
        Some(other) => place == other as u64,
        None => false,
    }
}

// Whether a foreign key of a table references what is dropped.
fn is_by(dropped: &Dropped<'_>, table: TableNo, key: &ForeignKey) -> bool
    ensures { result ≡ rule_test dropped.now table.0 (Rule.ForeignKey key.now) }
{
    match dropped {
        Dropped::Table(own, name) => table.0 != own.0 && key.parent.as_str() == *name,
        Dropped::Key(parent, place) => {
            key.parent.as_str() == parent.name.as_str()
                && is_at(*place, key_over(parent, key.parent_columns.as_slice()))
        }
    }
}

// The name of a constraint that references what is dropped.
fn name_by(
    dropped: &Dropped<'_>,
    table: TableNo,
    constraint: &Constraint,
) -> Result<Option<Name>, NoMemory>
    ensures { IfOk result (λ name. name ≡ (if test_of dropped.now (table.0, constraint.now) then Some constraint.now.name else None)) }
{
    let Rule::ForeignKey(key) = &constraint.rule else {
        return Ok(None);
    };
    if is_by(dropped, table, key) {
        return Ok(Some(constraint.name.copy()?));
    }
    Ok(None)
}

fn name_of(dropped: &Dropped<'_>, thing: &Thing) -> Result<Option<Name>, NoMemory>
    ensures { IfOk result (λ name. name ≡ name_in (test_of dropped.now) thing.now.table.0 thing.now.part) }
{
    match &thing.part {
        Part::Table { .. } => Ok(None),
        Part::Column(_) => Ok(None),
        Part::Constraint(constraint) => name_by(dropped, thing.table, constraint),
    }
}

// The name of the first foreign key that references what is dropped.
#[tactic(auto, using(crate::proofs::First::first_step))]
fn first_name(dropped: &Dropped<'_>, things: &[Thing]) -> Result<Option<Name>, NoMemory>
    ensures { IfOk result (λ first. first ≡ language.first_name (test_of dropped.now) things.now) }
{
    for thing in things {
        if let Some(name) = name_of(dropped, thing)? {
            return Ok(Some(name));
        }
    }
    Ok(None)
}

fn table_referenced(cat: &Catalog, name: &Name) -> Result<Option<Name>, NoMemory>
    ensures { IfOk result (λ found. found ≡ option_map_or (λ t. language.first_name (language.references_table t.0 name.now) cat.now) (schema.number_of cat.now name.now) None) }
{
    match number_of(cat, name.as_str()) {
        Some(table) => first_name(&Dropped::Table(table, name.as_str()), cat.things()),
        None => Ok(None),
    }
}

fn named_referenced(cat: &Catalog, table: &Table, name: &Name) -> Result<Option<Name>, NoMemory>
    ensures { IfOk result (λ found. found ≡ language.key_referenced cat.now table.now (schema.place_in name.now table.now)) }
{
    match table.place_of(name.as_str()) {
        Some(place) => first_name(&Dropped::Key(table, place.constraint.0), cat.things()),
        None => Ok(None),
    }
}

fn key_referenced(cat: &Catalog, table: &Name, name: &Name) -> Result<Option<Name>, NoMemory>
    ensures { IfOk result (λ found. found ≡ option_map_or (λ t. language.key_referenced cat.now t (schema.place_in name.now t)) (schema.table_named cat.now table.now) None) }
{
    match cat.table(table.as_str()) {
        Some(table) => named_referenced(cat, table, name),
        None => Ok(None),
    }
}

/// The name of the first foreign key that references a table or a key that a definition drops; a table may reference
/// itself. None where there is none. An `Err` is want of memory.
pub(crate) fn still_referenced(
    cat: &Catalog,
    definition: &Definition,
) -> Result<Option<Name>, NoMemory>
    ensures { IfOk result (λ name. name ≡ language.still_referenced cat.now definition.now) }
{
    match definition {
        Definition::DropTable(name) => table_referenced(cat, name),
        Definition::DropConstraint { table, name } => key_referenced(cat, table, name),
        Definition::CreateTable { .. } => Ok(None),
        Definition::AddColumn { .. } => Ok(None),
        Definition::AddConstraint { .. } => Ok(None),
        Definition::CreateIndex { .. } => Ok(None),
        Definition::DropIndex(_) => Ok(None),
        Definition::SetControl(_) => Ok(None),
        Definition::SetDefaultLevel { .. } => Ok(None),
    }
}
