// Constraints as they are read.
ghost use Rattle.std.specs.Prelude.{IfOk};
ghost use Rattle.hs_keytext.specs.Owners.{seen};
ghost use Rattle.hs_valuetext.specs.Finding.{Knows};
ghost use Rattle.hs_tabletext.specs.Constraints.{IsConstraintText, IsNamed};

use crate::{Conditions, read_rule};
use hs_keytext::Owner;
use hs_nametext::read_name;
use hs_plan::Constraint;
use hs_values::Name;
use hs_valuetext::behind;
use std::alloc::{AllocError, Global};

/// The constraint of this name whose rule, behind a space, is all of the text.
fn read_named<C: Conditions>(
    alloc: Global,
    name: &str,
    text: &str,
    owner: &Owner<'_>,
    conditions: &C,
) -> Result<Option<Constraint>, AllocError>
    ensures { IfOk result (λ found. Knows (λ c. c) (IsNamed (C.wording conditions.now) (seen owner.now) name.now text.now) found) }
{
    let Some(inner) = behind(text, " ") else {
        return Ok(None);
    };
    match read_rule(alloc, inner, owner, conditions)? {
        Some(rule) => {
            let name = Name::from_text(alloc, name)?;
            Ok(Some(Constraint { name, rule }))
        }
        None => Ok(None),
    }
}

/// The constraint of this owner whose name and rule are all of the text. None exactly where there is none: where it is written
/// otherwise, its name is none, or its rule has no such text. There is never more than one. An `Err` is want of memory.
pub fn read_constraint<C: Conditions>(
    alloc: Global,
    text: &str,
    owner: &Owner<'_>,
    conditions: &C,
) -> Result<Option<Constraint>, AllocError>
    ensures { IfOk result (λ found. Knows (λ c. c) (IsConstraintText (C.wording conditions.now) (seen owner.now) text.now) found) }
{
    match read_name(alloc, text) {
        Ok(Some((name, rest))) => read_named(alloc, name.as_str(), rest, owner, conditions),
        Ok(None) => Ok(None),
        Err(error) => Err(error),
    }
}
