// Rules as they are read.
ghost use Rattle.std.specs.Prelude.{IfOk};
ghost use Rattle.hs_keytext.specs.Owners.{seen};
ghost use Rattle.hs_valuetext.specs.Finding.{Knows};
ghost use Rattle.hs_tabletext.specs.Rules.{IsRuleText};

use crate::conditions::Conditions;
use crate::parts::{read_check, read_key, read_not_null};
use hs_keytext::{Owner, read_foreign_key};
use hs_plan::Rule;
use std::alloc::{AllocError, Global};

/// The rule of a constraint of this owner whose text is all of the text. None exactly where there is none: where it is written
/// otherwise, a name is no column's, a column stands twice, or the condition of a CHECK or a foreign key has no such text.
/// There is never more than one. An `Err` is want of memory.
pub fn read_rule<C: Conditions>(
    alloc: Global,
    text: &str,
    owner: &Owner<'_>,
    conditions: &C,
) -> Result<Option<Rule>, AllocError>
    ensures { IfOk result (λ found. Knows (λ r. r) (IsRuleText (C.wording conditions.now) (seen owner.now) text.now) found) }
{
    if let Some(place) = read_not_null(alloc, text, owner.columns)? {
        return Ok(Some(Rule::NotNull(place)));
    }
    if let Some(places) = read_key(alloc, text, "PRIMARY KEY(", owner.columns)? {
        return Ok(Some(Rule::PrimaryKey(places)));
    }
    if let Some(places) = read_key(alloc, text, "UNIQUE(", owner.columns)? {
        return Ok(Some(Rule::Unique(places)));
    }
    if let Some(condition) = read_check(alloc, text, owner.columns, conditions)? {
        return Ok(Some(Rule::Check(condition)));
    }
    match read_foreign_key(alloc, text, owner)? {
        Some(key) => Ok(Some(Rule::ForeignKey(key))),
        None => Ok(None),
    }
}
