// Definitions as they are read.
ghost use Rattle.std.specs.Prelude.{IfOk};
ghost use Rattle.hs_valuetext.specs.Finding.{Knows};
ghost use Rattle.hs_committext.specs.Definitions.{IsDefinitionText};

use crate::making::{altering, creating, indexing};
use hs_alterationtext::read_alter;
use hs_plan::Definition;
use hs_schema::Catalog;
use hs_shorttext::{read_index, read_plain};
use hs_tabletext::{Conditions, read_table};
use std::alloc::{AllocError, Global};

/// The definition whose canonical text is all of the text, beside this catalogue, which is as it was before. One of several
/// lines has them all, with line feeds between. None exactly where there is none: where the text is written otherwise, a name
/// is none, a table that is altered or gets an index isn't in the catalogue, or a column, a key or a constraint has no such
/// text. That the names of what is made are free isn't asked, nor that what is dropped is there. There is never more than one.
/// An `Err` is want of memory.
pub fn read_definition<C: Conditions>(
    alloc: Global,
    text: &str,
    catalog: &Catalog,
    conditions: &C,
) -> Result<Option<Definition>, AllocError>
    ensures { IfOk result (λ found. Knows (λ d. d) (IsDefinitionText (C.wording conditions.now) catalog.now text.now) found) }
{
    if let Some(found) = read_alter(alloc, text, catalog, conditions)? {
        let (table, alteration) = found;
        return Ok(Some(altering(table, alteration)));
    }
    if let Some(table) = read_table(alloc, text, catalog, conditions)? {
        return Ok(Some(creating(table)));
    }
    if let Some(index) = read_index(alloc, text, catalog)? {
        return Ok(Some(indexing(index)));
    }
    read_plain(alloc, text)
}
