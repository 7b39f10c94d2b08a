// The columns that a definition adds, and those that its keys and indexes are over.
ghost use Rattle.std.specs.Prelude.{◌≡◌, map, nat_eq, nat_lt, not};
ghost use Rattle.std.specs.List.{list_all, list_any};
ghost use Rattle.std.specs.Str.{bytes_eq};
ghost use Rattle.hs_language.specs.Added.{parts_added};
ghost use Rattle.hs_language.specs.Proper as spec;
ghost use Rattle.hs_language.specs.Sound.{are_distinct};

use crate::adding::{
    columns_added, columns_behind, columns_named, constraints_added, count, table_of,
};
use hs_plan::{Column, Constraint, Definition, Rule};
use hs_schema::Catalog;
use hs_values::Name;

// ---- names of columns

fn has_column(columns: &[Column], name: &Name) -> bool
    ensures { result ≡ spec.has_column columns.now name.now }
{
    columns
        .iter()
        .any(|column| name.as_str() == column.name.as_str())
}

// Whether no two columns have one name.
fn differ(columns: &[Column]) -> bool
    ensures { result ≡ are_distinct bytes_eq (map (λ c. c.name) columns.now) }
{
    let [first, rest @ ..] = columns else {
        return true;
    };
    !has_column(rest, &first.name) && differ(rest)
}

// Whether no column has the name of one that is before it.
fn are_apart(before: &[Column], columns: &[Column]) -> bool
    ensures { result ≡ list_all (λ c. not (spec.has_column before.now c.name)) columns.now }
{
    columns
        .iter()
        .all(|column| !has_column(before, &column.name))
}

// Whether columns have new names behind others.
fn are_new(before: &[Column], columns: &[Column]) -> bool
    ensures { result ≡ spec.are_new_columns before.now columns.now }
{
    differ(columns) && are_apart(before, columns)
}

/// Whether the columns that a definition adds have new names. Compares each with all others.
pub(crate) fn adds_new_columns(cat: &Catalog, definition: &Definition) -> bool
    ensures { result ≡ spec.adds_new_columns cat.now definition.now }
{
    are_new(
        columns_named(cat, table_of(definition)),
        columns_added(definition),
    )
}

// ---- keys and indexes

fn is_among(places: &[u32], place: u32) -> bool
    ensures { result ≡ list_any (nat_eq place) places.now }
{
    places.iter().any(|other| place == *other)
}

// Whether no place stands twice.
fn places_differ(places: &[u32]) -> bool
    ensures { result ≡ are_distinct nat_eq places.now }
{
    let [first, rest @ ..] = places else {
        return true;
    };
    !is_among(rest, *first) && places_differ(rest)
}

fn is_below(place: u32, many: usize) -> bool
    ensures { result ≡ nat_lt place many }
{
    (place as usize) < many
}

fn are_below(places: &[u32], many: usize) -> bool
    ensures { result ≡ list_all (λ p. nat_lt p many) places.now }
{
    places.iter().all(|place| is_below(*place, many))
}

// Whether these are places of some of so many columns, one at least and none twice.
fn are_columns(many: usize, places: &[u32]) -> bool
    ensures { result ≡ spec.are_columns many places.now }
{
    !places.is_empty() && (are_below(places, many) && places_differ(places))
}

// Whether a rule is over some of so many columns.
fn is_over(many: usize, rule: &Rule) -> bool
    ensures { result ≡ spec.is_over many rule.now }
{
    match rule {
        Rule::NotNull(place) => is_below(*place, many),
        Rule::PrimaryKey(places) => are_columns(many, places.as_slice()),
        Rule::Unique(places) => are_columns(many, places.as_slice()),
        Rule::Check(_) => true,
        Rule::ForeignKey(key) => are_columns(many, key.columns.as_slice()),
        Rule::Index(places) => are_columns(many, places.as_slice()),
    }
}

fn all_over(many: usize, constraints: &[Constraint]) -> bool
    ensures { result ≡ list_all (λ c. spec.is_over many c.rule) constraints.now }
{
    constraints
        .iter()
        .all(|constraint| is_over(many, &constraint.rule))
}

fn parts_over(many: usize, definition: &Definition) -> bool
    ensures { result ≡ list_all (λ c. spec.is_over many c.rule) (parts_added definition.now) }
{
    match definition {
        Definition::CreateIndex { columns, .. } => are_columns(many, columns.as_slice()),
        Definition::CreateTable { .. } => all_over(many, constraints_added(definition)),
        Definition::AddColumn { .. } => all_over(many, constraints_added(definition)),
        Definition::AddConstraint { .. } => all_over(many, constraints_added(definition)),
        Definition::DropTable(_) => true,
        Definition::DropConstraint { .. } => true,
        Definition::DropIndex(_) => true,
        Definition::SetControl(_) => true,
        Definition::SetDefaultLevel { .. } => true,
    }
}

/// Whether the constraints and indexes that a definition adds are over columns of their table.
pub(crate) fn are_over(cat: &Catalog, definition: &Definition) -> bool
    ensures { result ≡ spec.are_over cat.now definition.now }
{
    parts_over(count(&columns_behind(cat, definition)), definition)
}
