// Foreign keys that reference what a definition drops.
ghost use Rattle.std.specs.Prelude.{◌≡◌, map, None, is_none, is_some};
ghost use Rattle.std.specs.List.{list_any};
ghost use Rattle.std.specs.Option.{option_map_or};
ghost use Rattle.hs_language.specs.Definitions as language;
ghost use Rattle.hs_schema.specs.Catalogue as schema;

use crate::keys::key_over;
use hs_base::TableNo;
use hs_plan::{Definition, Rule};
use hs_schema::{Catalog, Part, Table, Thing};
use hs_values::Name;

// ---- a table

// Whether a rule is a foreign key that names this table as its parent.
fn names_table(rule: &Rule, name: &Name) -> bool
    ensures { result ≡ language.rule_names name.now rule.now }
{
    match rule {
        Rule::ForeignKey(key) => key.parent.as_str() == name.as_str(),
        Rule::NotNull(_) => false,
        Rule::PrimaryKey(_) => false,
        Rule::Unique(_) => false,
        Rule::Check(_) => false,
        Rule::Index(_) => false,
    }
}

// Whether a thing is a foreign key of another table that references this one.
fn references_table(thing: &Thing, table: TableNo, name: &Name) -> bool
    ensures { result ≡ list_any (language.references_table table.0 name.now) (map (λ c. (thing.now.table.0, c)) (schema.constraints_in thing.now.part)) }
{
    match &thing.part {
        Part::Table { .. } => false,
        Part::Column(_) => false,
        Part::Constraint(constraint) => {
            thing.table.0 != table.0 && names_table(&constraint.rule, name)
        }
    }
}

fn any_references_table(things: &[Thing], table: TableNo, name: &Name) -> bool
    ensures { result ≡ list_any (λ t. list_any (language.references_table table.0 name.now) (map (λ c. (t.table.0, c)) (schema.constraints_in t.part))) things.now }
{
    things
        .iter()
        .any(|thing| references_table(thing, table, name))
}

// Whether one of these things is a foreign key of another table that references this one.
fn is_referenced(things: &[Thing], table: TableNo, name: &Name) -> bool
    ensures { result ≡ is_some (language.first_name (language.references_table table.0 name.now) things.now) }
{
    any_references_table(things, table, name)
}

fn is_table_referenced(cat: &Catalog, name: &Name) -> bool
    ensures { result ≡ is_some (option_map_or (λ t. language.first_name (language.references_table t.0 name.now) cat.now) (schema.number_of cat.now name.now) None) }
{
    match number_of(cat, name.as_str()) {
        Some(table) => is_referenced(cat.things(), table, name),
        None => false,
    }
}

// The number of the table of a name.
fn number_of(cat: &Catalog, name: &str) -> Option<TableNo>
    ensures { result ≡ schema.number_of cat.now name.now }
{
    match cat.table(name) {
        Some(table) => Some(table.number),
        None => None,
    }
}

// ---- a key

fn is_at(place: u64, found: Option<usize>) -> bool
    ensures { result ≡ language.is_at place found }
{
    match found {
        Some(other) => place == other as u64,
        None => false,
    }
}

// Whether a rule is a foreign key that references what has this place among the constraints of a table.
fn takes_key(rule: &Rule, table: &Table, place: u64) -> bool
    ensures { result ≡ language.rule_takes table.now place rule.now }
{
    match rule {
        Rule::ForeignKey(key) => {
            key.parent.as_str() == table.name.as_str()
                && is_at(place, key_over(table, key.parent_columns.as_slice()))
        }
        Rule::NotNull(_) => false,
        Rule::PrimaryKey(_) => false,
        Rule::Unique(_) => false,
        Rule::Check(_) => false,
        Rule::Index(_) => false,
    }
}

fn references_key(thing: &Thing, table: &Table, place: u64) -> bool
    ensures { result ≡ list_any (language.references_key table.now place) (map (λ c. (thing.now.table.0, c)) (schema.constraints_in thing.now.part)) }
{
    match &thing.part {
        Part::Table { .. } => false,
        Part::Column(_) => false,
        Part::Constraint(constraint) => takes_key(&constraint.rule, table, place),
    }
}

fn any_references_key(things: &[Thing], table: &Table, place: u64) -> bool
    ensures { result ≡ list_any (λ t. list_any (language.references_key table.now place) (map (λ c. (t.table.0, c)) (schema.constraints_in t.part))) things.now }
{
    things
        .iter()
        .any(|thing| references_key(thing, table, place))
}

// Whether one of these things is a foreign key that references what has this place.
fn is_referenced_at(things: &[Thing], table: &Table, place: u64) -> bool
    ensures { result ≡ is_some (language.first_name (language.references_key table.now place) things.now) }
{
    any_references_key(things, table, place)
}

// Whether a foreign key references a table's key of this name.
fn is_named_referenced(cat: &Catalog, table: &Table, name: &Name) -> bool
    ensures { result ≡ is_some (language.key_referenced cat.now table.now (schema.place_in name.now table.now)) }
{
    match table.place_of(name.as_str()) {
        Some(place) => is_referenced_at(cat.things(), table, place.constraint.0),
        None => false,
    }
}

fn is_key_referenced(cat: &Catalog, table: &Name, name: &Name) -> bool
    ensures { result ≡ is_some (option_map_or (λ t. language.key_referenced cat.now t (schema.place_in name.now t)) (schema.table_named cat.now table.now) None) }
{
    match cat.table(table.as_str()) {
        Some(table) => is_named_referenced(cat, table, name),
        None => false,
    }
}

// ---- definitions

fn drops_referenced(cat: &Catalog, definition: &Definition) -> bool
    ensures { result ≡ is_some (language.still_referenced cat.now definition.now) }
{
    match definition {
        Definition::DropTable(name) => is_table_referenced(cat, name),
        Definition::DropConstraint { table, name } => is_key_referenced(cat, table, name),
        Definition::CreateTable { .. } => false,
        Definition::AddColumn { .. } => false,
        Definition::AddConstraint { .. } => false,
        Definition::CreateIndex { .. } => false,
        Definition::DropIndex(_) => false,
        Definition::SetControl(_) => false,
        Definition::SetDefaultLevel { .. } => false,
    }
}

/// Whether no foreign key references a table or a key that a definition drops; a table may reference itself. Takes no memory.
#[tactic(auto, using(crate::proofs::Indexes::none_is_not_some))]
pub(crate) fn drops_freely(cat: &Catalog, definition: &Definition) -> bool
    ensures { result ≡ is_none (language.still_referenced cat.now definition.now) }
{
    !drops_referenced(cat, definition)
}
