// Keys over given columns.
ghost use Rattle.std.specs.Prelude.{◌≡◌, Some};
ghost use Rattle.hs_footprint.specs.Touched as touched;
ghost use Rattle.hs_language.specs.Proper as spec;
ghost use Rattle.hs_sentences.specs.Asking.{is_one_of};

use hs_plan::{Constraint, Rule};
use hs_schema::Table;

fn has(columns: &[u32], column: u32) -> bool
    ensures { result ≡ is_one_of columns.now column }
{
    columns.iter().any(|one| column == *one)
}

fn has_all(columns: &[u32], others: &[u32]) -> bool
    ensures { result ≡ touched.has_all columns.now others.now }
{
    others.iter().all(|other| has(columns, *other))
}

fn are_same(own: &[u32], columns: &[u32]) -> bool
    ensures { result ≡ touched.are_same (Some own.now) columns.now }
{
    has_all(own, columns) && has_all(columns, own)
}

// Whether a rule is a key over these columns, in any order.
fn is_key_over(rule: &Rule, columns: &[u32]) -> bool
    ensures { result ≡ touched.are_same (touched.key_columns rule.now) columns.now }
{
    match rule {
        Rule::PrimaryKey(own) => are_same(own.as_slice(), columns),
        Rule::Unique(own) => are_same(own.as_slice(), columns),
        Rule::NotNull(_) => false,
        Rule::Check(_) => false,
        Rule::ForeignKey(_) => false,
        Rule::Index(_) => false,
    }
}

/// Whether one of these constraints is a key over these columns, in any order.
pub(crate) fn has_key_over(constraints: &[Constraint], columns: &[u32]) -> bool
    ensures { result ≡ spec.has_key_over constraints.now columns.now }
{
    constraints
        .iter()
        .any(|constraint| is_key_over(&constraint.rule, columns))
}

/// The place of the first key of a table over these columns, in any order, among the table's constraints.
pub(crate) fn key_over(table: &Table, columns: &[u32]) -> Option<usize>
    ensures { result ≡ touched.key_over table.now columns.now }
{
    table
        .constraints
        .as_slice()
        .iter()
        .position(|constraint| is_key_over(&constraint.rule, columns))
}
