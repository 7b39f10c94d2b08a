// Constraints behind the line of their table or of their column, as they are read.
ghost use Rattle.std.specs.Prelude.{◌≡◌, true, IfOk};
ghost use Rattle.hs_keytext.specs.Owners.{seen};
ghost use Rattle.hs_valuetext.specs.Finding.{Knows};
ghost use Rattle.hs_valuetext.specs.Quotes.{begins_with};
ghost use Rattle.hs_tabletext.specs.Constraints.{constraint_text, IsConstraint, AreConstraintLines};
ghost use Rattle.hs_parttext.specs.Lines.{AreLines};

use crate::Conditions;
use crate::constraints::read_constraint;
use crate::front::front_of;
use hs_keytext::Owner;
use hs_parttext::first_line;
use hs_plan::Constraint;
use hs_valuetext::behind;
use sqlite_items::Items;
use std::alloc::{AllocError, Global};

/// The constraints that are all of the text, each behind this front on a line of its own.
fn read_lines<C: Conditions>(
    alloc: Global,
    text: &str,
    front: &str,
    owner: &Owner<'_>,
    conditions: &C,
) -> Result<Option<Items<Constraint>>, AllocError>
    requires { begins_with 10 front.now ≡ true }
    ensures { IfOk result (λ found. Knows (λ c. c) (AreLines (IsConstraint (C.wording conditions.now) (seen owner.now)) front.now (constraint_text (C.wording conditions.now) (seen owner.now)) text.now) found) }
{
    let mut constraints = Items::new(alloc);
    let mut rest = text;
    while let Some(inner) = behind(rest, front) {
        let (line, more) = first_line(inner);
        match read_constraint(alloc, line, owner, conditions)? {
            Some(constraint) => {
                constraints.push(constraint)?;
                rest = more;
            }
            None => return Ok(None),
        }
    }
    if rest.is_empty() {
        Ok(Some(constraints))
    } else {
        Ok(None)
    }
}

/// The constraints of this owner whose lines, each behind a line feed, are all of the text. None exactly where there are none;
/// the list may be empty. There is never more than one. An `Err` is want of memory.
pub fn read_constraint_lines<C: Conditions>(
    alloc: Global,
    text: &str,
    owner: &Owner<'_>,
    conditions: &C,
) -> Result<Option<Items<Constraint>>, AllocError>
    ensures { IfOk result (λ found. Knows (λ c. c) (AreConstraintLines (C.wording conditions.now) (seen owner.now) text.now) found) }
{
    match front_of(alloc, owner.name) {
        Ok(front) => read_lines(alloc, text, front.as_str(), owner, conditions),
        Err(_) => Err(AllocError),
    }
}
