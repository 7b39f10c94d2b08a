// The constraints and the indexes of a table by their names.
ghost use Rattle.std.specs.Prelude.{◌≡◌};
ghost use Rattle.hs_drops.specs.Definitions as spec;

use hs_plan::{Constraint, Rule};

/// Whether it is an index, which is no constraint.
pub fn is_index(rule: &Rule) -> bool
    ensures { result ≡ spec.is_index rule.now }
{
    match rule {
        Rule::Index(_) => true,
        Rule::NotNull(_)
        | Rule::PrimaryKey(_)
        | Rule::Unique(_)
        | Rule::Check(_)
        | Rule::ForeignKey(_) => false,
    }
}

fn is_constraint_named(name: &str, c: &Constraint) -> bool
    ensures { result ≡ spec.is_constraint_named name.now c.now }
{
    name == c.name.as_str() && !is_index(&c.rule)
}

fn is_index_named(name: &str, c: &Constraint) -> bool
    ensures { result ≡ spec.is_index_named name.now c.now }
{
    name == c.name.as_str() && is_index(&c.rule)
}

/// Whether a constraint that is no index has this name. Takes no memory.
pub fn has_constraint(constraints: &[Constraint], name: &str) -> bool
    ensures { result ≡ spec.has_constraint constraints.now name.now }
{
    constraints.iter().any(|c| is_constraint_named(name, c))
}

/// Whether an index has this name. Takes no memory.
pub fn has_index(constraints: &[Constraint], name: &str) -> bool
    ensures { result ≡ spec.has_index constraints.now name.now }
{
    constraints.iter().any(|c| is_index_named(name, c))
}
