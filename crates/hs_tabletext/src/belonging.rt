// Constraints of a column of their own.
ghost use Rattle.std.specs.Prelude.{◌≡◌};
ghost use Rattle.std.specs.List.{list_all};
ghost use Rattle.hs_tabletext.specs.Columns as spec;

use hs_plan::{Constraint, Rule};

/// Whether this place alone is listed.
fn is_alone(place: usize, places: &[u32]) -> bool
    ensures { result ≡ spec.is_alone place places.now }
{
    match places {
        [only] => *only as usize == place,
        _ => false,
    }
}

/// Whether a rule can be that of a column's own constraint, the column being at this place.
fn is_own(place: usize, rule: &Rule) -> bool
    ensures { result ≡ spec.is_own place rule.now }
{
    match rule {
        Rule::NotNull(column) => *column as usize == place,
        Rule::PrimaryKey(columns) | Rule::Unique(columns) | Rule::Index(columns) => {
            is_alone(place, columns.as_slice())
        }
        Rule::Check(_) => true,
        Rule::ForeignKey(key) => is_alone(place, key.columns.as_slice()),
    }
}

/// Whether all constraints can be a column's own, the column being at this place.
pub(crate) fn are_own(place: usize, constraints: &[Constraint]) -> bool
    ensures { result ≡ list_all (λ c. spec.is_own place c.rule) constraints.now }
{
    constraints
        .iter()
        .all(|constraint| is_own(place, &constraint.rule))
}
