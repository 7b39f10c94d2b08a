// Changes of commits as they are read.
ghost use Rattle.std.specs.Prelude.{◌≡◌, ◌≢◌, ◌∷◌, ◌++◌, [], ℕ, List, IfOk, MatchOption};
ghost use Rattle.hs_committext.specs.Changes.{IsChangeText};
ghost use Rattle.hs_valuetext.specs.Finding.{Knows};
ghost use Rattle.hs_committext.specs.Commits.{AreChangesIn, IsLoneDefinition};
ghost use Rattle.hs_committext.specs.Lines.{AreLinesOf};

use crate::rows::read_rows;
use crate::{Conditions, read_definition};
use hs_plan::{Change, Changes, Definition};
use hs_schema::Catalog;
use sqlite_items::Boxed;
use std::alloc::{AllocError, Global};
use std::str;

/// What is before a line feed at the end.
fn without_feed(text: &str) -> Option<&str>
    ensures { MatchOption result ((xs : List ℕ) → text.now ≢ xs ++ 10 ∷ []) (λ xs. text.now ≡ xs.now ++ 10 ∷ []) }
{
    text.strip_suffix('\n')
}

/// The list of one definition.
fn alone(alloc: Global, definition: Definition) -> Result<Changes, AllocError>
    ensures { IfOk result (λ changes. changes ≡ Change.Define definition ∷ []) }
{
    let mut changes = Vec::new(alloc);
    changes.push(Change::Define(Boxed::new(alloc, definition)?))?;
    Ok(Changes::from_vec(changes))
}

/// The definition whose canonical text, with a line feed behind it, is all of the text, as a list of it alone.
fn read_lone<C: Conditions>(
    alloc: Global,
    text: &str,
    catalog: &Catalog,
    conditions: &C,
) -> Result<Option<Changes>, AllocError>
    ensures { IfOk result (λ found. Knows (λ c. c) (IsLoneDefinition (C.wording conditions.now) catalog.now text.now) found) }
{
    let Some(lines) = without_feed(text) else {
        return Ok(None);
    };
    match read_definition(alloc, lines, catalog, conditions)? {
        Some(definition) => {
            let changes = alone(alloc, definition)?;
            Ok(Some(changes))
        }
        None => Ok(None),
    }
}

/// The changes of a commit whose lines are all of the text.
fn read_text<C: Conditions>(
    alloc: Global,
    text: &str,
    catalog: &Catalog,
    conditions: &C,
) -> Result<Option<Changes>, AllocError>
    ensures { IfOk result (λ found. Knows (λ c. c) (AreChangesIn (C.wording conditions.now) catalog.now text.now) found) }
{
    if text.is_empty() {
        return Ok(None);
    }
    match read_rows(alloc, text, catalog)? {
        Some(changes) => Ok(Some(changes)),
        None => read_lone(alloc, text, catalog, conditions),
    }
}

/// The changes of a commit whose lines are all of the text, beside this catalogue, which is as it was before them: either one
/// definition alone, or changes of rows. Each change has a line feed behind it. None exactly where there are none: where the
/// text is empty or isn't UTF-8, or is neither a definition's nor lines of changes of rows. There is never more than one. An
/// `Err` is want of memory.
pub fn read_changes<C: Conditions>(
    alloc: Global,
    lines: &[u8],
    catalog: &Catalog,
    conditions: &C,
) -> Result<Option<Changes>, AllocError>
    ensures { IfOk result (λ found. Knows (λ c. c) (AreChangesIn (C.wording conditions.now) catalog.now lines.now) found) }
{
    match str::from_utf8(lines) {
        Ok(text) => read_text(alloc, text, catalog, conditions),
        Err(_) => Ok(None),
    }
}
