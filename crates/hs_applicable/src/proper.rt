// Definitions that are proper.
ghost use Rattle.std.specs.Prelude.{◌≡◌, map};
ghost use Rattle.std.specs.List.{list_all};
ghost use Rattle.hs_applicable.specs.Bound as bound;
ghost use Rattle.hs_language.specs.Added as added;
ghost use Rattle.hs_language.specs.Sound as sound;
ghost use Rattle.hs_language.specs.Proper as spec;
ghost use Rattle.hs_schema.specs.Catalogue.{constraints_in};
ghost use Rattle.hs_sentences.specs.Violations.{constraints_of};

use crate::adding::{adds_to, columns_added, constraints_added, constraints_named};
use crate::columns::{adds_new_columns, are_over};
use crate::keys::has_key_over;
use crate::limits::keeps_limits;
use crate::pairs::are_paired;
use hs_ast::Storage;
use hs_plan::{Column, Constraint, Definition, ForeignKey, Rule};
use hs_schema::{Catalog, Part, Thing};
use hs_values::{Name, fits};

// ---- tables

fn is_memory(storage: &Storage) -> bool
    ensures { result ≡ spec.is_memory storage.now }
{
    match storage {
        Storage::Memory => true,
        Storage::Cached => false,
    }
}

// Whether a table that a definition makes is in memory.
fn is_in_memory(definition: &Definition) -> bool
    ensures { result ≡ spec.is_in_memory definition.now }
{
    match definition {
        Definition::CreateTable { storage, .. } => is_memory(storage),
        Definition::DropTable(_) => true,
        Definition::AddColumn { .. } => true,
        Definition::AddConstraint { .. } => true,
        Definition::DropConstraint { .. } => true,
        Definition::CreateIndex { .. } => true,
        Definition::DropIndex(_) => true,
        Definition::SetControl(_) => true,
        Definition::SetDefaultLevel { .. } => true,
    }
}

// ---- defaults

fn has_fitting_default(column: &Column) -> bool
    ensures { result ≡ sound.has_fitting_default column.now }
{
    match &column.default {
        Some(value) => fits(&column.data_type, value),
        None => true,
    }
}

fn have_fitting_defaults(columns: &[Column]) -> bool
    ensures { result ≡ list_all sound.has_fitting_default columns.now }
{
    columns.iter().all(|column| has_fitting_default(column))
}

// ---- foreign keys

// Whether a table has a key over these columns, in any order, or the definition gives it one.
fn has_parent_key(cat: &Catalog, definition: &Definition, parent: &str, columns: &[u32]) -> bool
    ensures { result ≡ spec.has_key_over (added.constraints_seen cat.now definition.now parent.now) columns.now }
{
    has_key_over(constraints_named(cat, parent), columns)
        || (adds_to(definition, parent) && has_key_over(constraints_added(definition), columns))
}

fn refers(cat: &Catalog, definition: &Definition, key: &ForeignKey) -> bool
    ensures { result ≡ spec.refers cat.now definition.now key.now }
{
    key.columns.len() == key.parent_columns.len()
        && has_parent_key(
            cat,
            definition,
            key.parent.as_str(),
            key.parent_columns.as_slice(),
        )
}

fn rule_refers(cat: &Catalog, definition: &Definition, rule: &Rule) -> bool
    ensures { result ≡ spec.rule_refers cat.now definition.now rule.now }
{
    match rule {
        Rule::ForeignKey(key) => refers(cat, definition, key),
        Rule::NotNull(_) => true,
        Rule::PrimaryKey(_) => true,
        Rule::Unique(_) => true,
        Rule::Check(_) => true,
        Rule::Index(_) => true,
    }
}

fn all_refer(cat: &Catalog, definition: &Definition, constraints: &[Constraint]) -> bool
    ensures { result ≡ list_all (λ c. spec.rule_refers cat.now definition.now c.rule) constraints.now }
{
    constraints.iter().all(|constraint| rule_refers(cat, definition, &constraint.rule))
}

// ---- what is dropped

fn is_index(rule: &Rule) -> bool
    ensures { result ≡ spec.is_index rule.now }
{
    match rule {
        Rule::Index(_) => true,
        Rule::NotNull(_) => false,
        Rule::PrimaryKey(_) => false,
        Rule::Unique(_) => false,
        Rule::Check(_) => false,
        Rule::ForeignKey(_) => false,
    }
}

// Whether a thing is an index, where it is a constraint or an index of this name.
fn is_index_named(name: &Name, thing: &Thing) -> bool
    ensures { result ≡ list_all (spec.is_index_named name.now) (map (λ c. (thing.now.table.0, c)) (constraints_in thing.now.part)) }
{
    match &thing.part {
        Part::Table { .. } => true,
        Part::Column(_) => true,
        Part::Constraint(constraint) => {
            name.as_str() != constraint.name.as_str() || is_index(&constraint.rule)
        }
    }
}

fn all_indexes_named(name: &Name, things: &[Thing]) -> bool
    ensures { result ≡ list_all (λ t. list_all (spec.is_index_named name.now) (map (λ c. (t.table.0, c)) (constraints_in t.part))) things.now }
{
    things.iter().all(|thing| is_index_named(name, thing))
}

// Whether what has this name is an index.
fn are_indexes_named(name: &Name, things: &[Thing]) -> bool
    ensures { result ≡ list_all (spec.is_index_named name.now) (constraints_of things.now) }
{
    all_indexes_named(name, things)
}

fn drops_index(cat: &Catalog, definition: &Definition) -> bool
    ensures { result ≡ spec.drops_index cat.now definition.now }
{
    match definition {
        Definition::DropIndex(name) => are_indexes_named(name, cat.things()),
        Definition::CreateTable { .. } => true,
        Definition::DropTable(_) => true,
        Definition::AddColumn { .. } => true,
        Definition::AddConstraint { .. } => true,
        Definition::DropConstraint { .. } => true,
        Definition::CreateIndex { .. } => true,
        Definition::SetControl(_) => true,
        Definition::SetDefaultLevel { .. } => true,
    }
}

fn is_constraint_named(name: &Name, constraint: &Constraint) -> bool
    ensures { result ≡ spec.is_constraint_named name.now constraint.now }
{
    name.as_str() != constraint.name.as_str() || !is_index(&constraint.rule)
}

fn are_constraints_named(name: &Name, constraints: &[Constraint]) -> bool
    ensures { result ≡ list_all (spec.is_constraint_named name.now) constraints.now }
{
    constraints
        .iter()
        .all(|constraint| is_constraint_named(name, constraint))
}

fn drops_constraint(cat: &Catalog, definition: &Definition) -> bool
    ensures { result ≡ spec.drops_constraint cat.now definition.now }
{
    match definition {
        Definition::DropConstraint { table, name } => {
            are_constraints_named(name, constraints_named(cat, table.as_str()))
        }
        Definition::CreateTable { .. } => true,
        Definition::DropTable(_) => true,
        Definition::AddColumn { .. } => true,
        Definition::AddConstraint { .. } => true,
        Definition::CreateIndex { .. } => true,
        Definition::DropIndex(_) => true,
        Definition::SetControl(_) => true,
        Definition::SetDefaultLevel { .. } => true,
    }
}

// ---- the whole

fn is_bound(cat: &Catalog, definition: &Definition) -> bool
    ensures { result ≡ bound.is_bound cat.now definition.now }
{
    cat.is_bound(definition)
}

// Whether the columns that a definition adds are such as a table may have.
fn has_fine_columns(cat: &Catalog, definition: &Definition) -> bool
    ensures { result ≡ bound.has_fine_columns cat.now definition.now }
{
    adds_new_columns(cat, definition) && have_fitting_defaults(columns_added(definition))
}

// Whether the constraints and indexes that a definition adds are such as a table may have.
fn has_fine_constraints(cat: &Catalog, definition: &Definition) -> bool
    ensures { result ≡ bound.has_fine_constraints cat.now definition.now }
{
    are_over(cat, definition)
        && (all_refer(cat, definition, constraints_added(definition))
            && are_paired(cat, definition))
}

/// Whether a definition is proper. It is bound. A table that it makes is in memory, and it keeps the limits on tables. The columns
/// that it adds have new names, and their defaults fit them. Its keys and indexes are over columns of their table. Each foreign key
/// that it adds references a key that its parent has, or gets by it, and the columns of both are of the same kinds. An index that it
/// drops is one, and a constraint is none. Takes no memory.
pub(crate) fn is_proper(cat: &Catalog, definition: &Definition) -> bool
    ensures { result ≡ bound.is_proper cat.now definition.now }
{
    is_in_memory(definition)
        && (keeps_limits(cat, definition)
            && (is_bound(cat, definition)
                && (has_fine_columns(cat, definition)
                    && (has_fine_constraints(cat, definition)
                        && (drops_index(cat, definition) && drops_constraint(cat, definition))))))
}
