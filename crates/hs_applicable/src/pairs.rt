// The columns of foreign keys beside those that they reference.
ghost use Rattle.std.specs.Prelude.{◌≡◌, slice_get};
ghost use Rattle.std.specs.List.{list_all, zip};
ghost use Rattle.std.specs.Option.{option_copied};
ghost use Rattle.hs_applicable.specs.Columns.{seen};
ghost use Rattle.hs_language.specs.Proper as spec;
ghost use Rattle.hs_outlines.specs.ForeignKeys as keys;

use crate::adding::{Columns, column_at, columns_behind, columns_seen, constraints_added};
use hs_plan::{Column, Constraint, Definition, ForeignKey, Rule};
use hs_schema::Catalog;
use hs_values::SqlType;

fn is_whole(data_type: &SqlType) -> bool
    ensures { result ≡ keys.is_whole data_type.now }
{
    match data_type {
        SqlType::Small | SqlType::Integer | SqlType::Big => true,
        _ => false,
    }
}

fn has_scale(scale: u8, data_type: &SqlType) -> bool
    ensures { result ≡ keys.has_scale scale data_type.now }
{
    match data_type {
        SqlType::Decimal { scale: its, .. } => scale == *its,
        _ => false,
    }
}

// Whether a column of the first type may reference one of the second.
fn may_reference(child: &SqlType, parent: &SqlType) -> bool
    ensures { result ≡ keys.may_reference child.now parent.now }
{
    match child {
        SqlType::Small | SqlType::Integer | SqlType::Big => is_whole(parent),
        SqlType::Decimal { scale, .. } => has_scale(*scale, parent),
        SqlType::Varchar { .. } => matches!(parent, SqlType::Varchar { .. }),
        SqlType::Bool => matches!(parent, SqlType::Bool),
        SqlType::Date => matches!(parent, SqlType::Date),
        SqlType::Stamp => matches!(parent, SqlType::Stamp),
    }
}

fn are_alike(child: Option<&Column>, parent: Option<&Column>) -> bool
    ensures { result ≡ keys.are_alike (option_copied child.entry) (option_copied parent.entry) }
{
    let Some(child) = child else {
        return false;
    };
    let Some(parent) = parent else {
        return false;
    };
    may_reference(&child.data_type, &parent.data_type)
}

// Whether the columns at two places are of the same kind.
fn alike_at(child: &Columns<'_>, parent: &Columns<'_>, column: u32, its: u32) -> bool
    ensures { result ≡ keys.are_alike (slice_get (seen child.now) column) (slice_get (seen parent.now) its) }
{
    are_alike(column_at(child, column), column_at(parent, its))
}

// Whether the columns at these places are of the same kinds, one beside the other.
fn all_alike(child: &Columns<'_>, parent: &Columns<'_>, columns: &[u32], parents: &[u32]) -> bool
    ensures { result ≡ keys.all_alike (seen child.now) (seen parent.now) (zip columns.now parents.now) }
{
    columns
        .iter()
        .zip(parents)
        .all(|(column, its)| alike_at(child, parent, *column, *its))
}

fn pairs(cat: &Catalog, definition: &Definition, key: &ForeignKey) -> bool
    ensures { result ≡ spec.pairs cat.now definition.now key.now }
{
    all_alike(
        &columns_behind(cat, definition),
        &columns_seen(cat, definition, key.parent.as_str()),
        key.columns.as_slice(),
        key.parent_columns.as_slice(),
    )
}

fn rule_pairs(cat: &Catalog, definition: &Definition, rule: &Rule) -> bool
    ensures { result ≡ spec.rule_pairs cat.now definition.now rule.now }
{
    match rule {
        Rule::ForeignKey(key) => pairs(cat, definition, key),
        Rule::NotNull(_) => true,
        Rule::PrimaryKey(_) => true,
        Rule::Unique(_) => true,
        Rule::Check(_) => true,
        Rule::Index(_) => true,
    }
}

fn all_pair(cat: &Catalog, definition: &Definition, constraints: &[Constraint]) -> bool
    ensures { result ≡ list_all (λ c. spec.rule_pairs cat.now definition.now c.rule) constraints.now }
{
    constraints
        .iter()
        .all(|constraint| rule_pairs(cat, definition, &constraint.rule))
}

/// Whether the columns of each foreign key that a definition adds are of the kinds of those that it references.
pub(crate) fn are_paired(cat: &Catalog, definition: &Definition) -> bool
    ensures { result ≡ spec.are_paired cat.now definition.now }
{
    all_pair(cat, definition, constraints_added(definition))
}
