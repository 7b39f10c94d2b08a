// Changes as they are written and read.
ghost use Rattle.std.specs.Prelude.{◌≡◌, ◌++◌, OnOk, IfOk};
ghost use Rattle.hs_valuetext.specs.Finding.{Knows};
ghost use Rattle.hs_committext.specs.Changes.{change_text, IsChangeText, IsPrintable};
ghost use Rattle.hs_committext.specs.DefinitionReading.{Reads};

use crate::definition_printing::print_definition;
use crate::definitions::read_definition;
use crate::line_fault::LineFault;
use crate::row_changes::print_row_change;
use hs_base::NoMemory;
use hs_plan::Change;
use hs_rowtext::read_row_line;
use hs_schema::Catalog;
use hs_tabletext::Conditions;
use hs_values::Chars;
use sqlite_items::Boxed;
use std::alloc::{AllocError, Global};

/// Adds the canonical text of a change beside this catalogue, which is as it was before: its line, or the lines of its
/// definition with line feeds between, and no end behind the last one. A row's table is found by its number, and has the empty
/// name where the catalogue has none of this number. The values are lawful, and the conditions of CHECKs have texts. Takes its
/// memory where the catalogue does. An `Err` is want of memory, and then a part of the text may be there.
pub fn print_change<C: Conditions>(
    change: &Change,
    catalog: &Catalog,
    conditions: &C,
    out: &mut Chars,
) -> Result<(), NoMemory>
    requires { IsPrintable (C.wording conditions.now) catalog.now change.now }
    ensures { OnOk result (out.new ≡ out.old ++ change_text (C.wording conditions.now) catalog.now change.now) }
{
    let alloc = catalog.alloc();
    match change {
        Change::Insert(table, _) => print_row_change(alloc, *table, change, catalog, out),
        Change::Put(table, _, _) => print_row_change(alloc, *table, change, catalog, out),
        Change::Delete(table, _) => print_row_change(alloc, *table, change, catalog, out),
        Change::Define(definition) => {
            print_definition(alloc, definition.get(), catalog, conditions, out)
        }
    }
}

/// The change whose canonical text is all of the text.
fn read_known<C: Conditions>(
    alloc: Global,
    text: &str,
    catalog: &Catalog,
    conditions: &C,
) -> Result<Option<Change>, AllocError>
    ensures { IfOk result (λ found. Knows (λ c. c) (IsChangeText (C.wording conditions.now) catalog.now text.now) found) }
{
    if let Some(change) = read_row_line(alloc, text, catalog)? {
        return Ok(Some(change));
    }
    match read_definition(alloc, text, catalog, conditions)? {
        Some(definition) => Ok(Some(Change::Define(Boxed::new(alloc, definition)?))),
        None => Ok(None),
    }
}

/// The change whose canonical text this is, beside this catalogue, which is as it was before. A definition of several lines
/// has them all, with line feeds between, and no end is behind the last one. There is never more than one. Takes its memory
/// where the catalogue does.
///
/// `Broken`: exactly where there is none. The text is written otherwise, a name is none, the catalogue has no such table, a
/// row's values aren't those of its columns, their encoding has more than 4,000 bytes, a row's number is 0 or has more than
/// 64 bits, or a column, a key or a constraint of a definition has no such text. `NoMemory`: no rule says when.
pub fn read_change<C: Conditions>(
    text: &str,
    catalog: &Catalog,
    conditions: &C,
) -> Result<Change, LineFault>
    ensures { Reads (λ c. c) (IsChangeText (C.wording conditions.now) catalog.now text.now) result }
{
    match read_known(catalog.alloc(), text, catalog, conditions) {
        Ok(Some(change)) => Ok(change),
        Ok(None) => Err(LineFault::Broken),
        Err(_) => Err(LineFault::NoMemory),
    }
}
