// The limits that a definition keeps.
ghost use Rattle.std.specs.Prelude.{◌≡◌};
ghost use Rattle.hs_language.specs.Limits as spec;
ghost use Rattle.hs_outlines.specs.Named as named;

use crate::adding::{
    columns_added, columns_named, constraints_added, constraints_named, count_parts, table_of,
};
use hs_plan::{Constraint, Definition, Rule};
use hs_schema::Catalog;

// Whether there are at most so many with more, where there are more.
fn stays_within(limit: usize, before: usize, more: usize) -> bool
    ensures { result ≡ spec.stays_within limit before more }
{
    more == 0 || (more <= limit && before <= limit - more)
}

// How many tables a definition makes.
fn tables_added(definition: &Definition) -> usize
    ensures { result ≡ spec.tables_added definition.now }
{
    match definition {
        Definition::CreateTable { .. } => 1,
        Definition::DropTable(_) => 0,
        Definition::AddColumn { .. } => 0,
        Definition::AddConstraint { .. } => 0,
        Definition::DropConstraint { .. } => 0,
        Definition::CreateIndex { .. } => 0,
        Definition::DropIndex(_) => 0,
        Definition::SetControl(_) => 0,
        Definition::SetDefaultLevel { .. } => 0,
    }
}

fn is_primary_key(rule: &Rule) -> bool
    ensures { result ≡ named.is_primary_key rule.now }
{
    match rule {
        Rule::PrimaryKey(_) => true,
        Rule::NotNull(_) => false,
        Rule::Unique(_) => false,
        Rule::Check(_) => false,
        Rule::ForeignKey(_) => false,
        Rule::Index(_) => false,
    }
}

// How many of the constraints are primary keys.
fn primary_keys(constraints: &[Constraint]) -> usize
    ensures { result ≡ spec.primary_keys constraints.now }
{
    constraints
        .iter()
        .filter(|constraint| is_primary_key(&constraint.rule))
        .count()
}

fn keeps_tables(cat: &Catalog, definition: &Definition) -> bool
    ensures { result ≡ spec.keeps_tables cat.now definition.now }
{
    stays_within(1_024, cat.count_tables(), tables_added(definition))
}

fn keeps_columns(cat: &Catalog, definition: &Definition) -> bool
    ensures { result ≡ spec.keeps_columns cat.now definition.now }
{
    let before = columns_named(cat, table_of(definition));
    stays_within(64, before.len(), columns_added(definition).len())
}

fn keeps_parts(cat: &Catalog, definition: &Definition) -> bool
    ensures { result ≡ spec.keeps_parts cat.now definition.now }
{
    let before = constraints_named(cat, table_of(definition));
    stays_within(64, before.len(), count_parts(definition))
}

fn keeps_primary_key(cat: &Catalog, definition: &Definition) -> bool
    ensures { result ≡ spec.keeps_primary_key cat.now definition.now }
{
    let before = constraints_named(cat, table_of(definition));
    stays_within(
        1,
        primary_keys(before),
        primary_keys(constraints_added(definition)),
    )
}

/// Whether a definition keeps the limits: at most 1,024 tables, and in a table at most 64 columns, 64 constraints and indexes, and
/// one primary key.
pub(crate) fn keeps_limits(cat: &Catalog, definition: &Definition) -> bool
    ensures { result ≡ spec.keeps_limits cat.now definition.now }
{
    keeps_tables(cat, definition)
        && (keeps_columns(cat, definition)
            && (keeps_parts(cat, definition) && keeps_primary_key(cat, definition)))
}
