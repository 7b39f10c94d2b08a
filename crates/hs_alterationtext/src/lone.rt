// Constraints that are added alone, as they are read.
ghost use Rattle.std.specs.Prelude.{◌≡◌, IfOk};
ghost use Rattle.hs_keytext.specs.Owners.{seen};
ghost use Rattle.hs_valuetext.specs.Finding.{Knows};
ghost use Rattle.hs_alterationtext.specs.Alterations as spec;

use hs_keytext::Owner;
use hs_plan::{Constraint, Rule};
use hs_tabletext::{Conditions, read_constraint};
use std::alloc::{AllocError, Global};

fn is_not_null(rule: &Rule) -> bool
    ensures { result ≡ spec.is_not_null rule.now }
{
    match rule {
        Rule::NotNull(_) => true,
        Rule::PrimaryKey(_)
        | Rule::Unique(_)
        | Rule::Check(_)
        | Rule::ForeignKey(_)
        | Rule::Index(_) => false,
    }
}

/// The constraint of this table that is all of the text, and isn't NOT NULL.
pub(crate) fn read_lone<C: Conditions>(
    alloc: Global,
    text: &str,
    table: &Owner<'_>,
    conditions: &C,
) -> Result<Option<Constraint>, AllocError>
    ensures { IfOk result (λ found. Knows (λ c. c) (spec.IsLoneText (C.wording conditions.now) (seen table.now) text.now) found) }
{
    match read_constraint(alloc, text, table, conditions)? {
        Some(constraint) => {
            if is_not_null(&constraint.rule) {
                Ok(None)
            } else {
                Ok(Some(constraint))
            }
        }
        None => Ok(None),
    }
}
