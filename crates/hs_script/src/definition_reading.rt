// The second group of a slot as it is read.
ghost use Rattle.std.specs.Prelude.{◌≡◌, ◌↔◌, IsTrue, IfOk};
ghost use Rattle.hs_valuetext.specs.Finding.{Finds, Knows};
ghost use Rattle.hs_committext.specs.Definitions.{IsDefinitionText};
ghost use Rattle.hs_script.specs.Definitions as spec;

use crate::numbered::read_run;
use crate::rules::Rules;
use hs_base::NoMemory;
use hs_committext::{Conditions, read_definition};
use hs_plan::Definition;
use hs_schema::Catalog;
use hs_values::Chars;
use std::alloc::{AllocError, Global};

/// Whether a definition makes things, and takes none away.
fn is_making(definition: &Definition) -> bool
    ensures { result ≡ spec.is_making definition.now }
{
    match definition {
        Definition::CreateTable { .. } => true,
        Definition::AddColumn { .. } => true,
        Definition::AddConstraint { .. } => true,
        Definition::CreateIndex { .. } => true,
        Definition::DropTable(_) => false,
        Definition::DropConstraint { .. } => false,
        Definition::DropIndex(_) => false,
        Definition::SetControl(_) => false,
        Definition::SetDefaultLevel { .. } => false,
    }
}

/// Whether a definition can be made beside this catalogue with this number, which is at most the most: it makes things, its names
/// are new and its tables there, no thing has a greater number, and the rules allow it. Takes no memory.
pub fn fits<R: Rules>(
    catalog: &Catalog,
    number: u64,
    definition: &Definition,
    most: u64,
    rules: &R,
) -> bool
    ensures { IsTrue result ↔ spec.Fits (R.may rules.now) most catalog.now (number, definition.now) }
{
    if number == 0 {
        return false;
    }
    if number > most {
        return false;
    }
    if !is_making(definition) {
        return false;
    }
    if !catalog.is_bound(definition) {
        return false;
    }
    if !catalog.is_next(definition, number) {
        return false;
    }
    rules.may_define(catalog, definition)
}

/// The definition whose lines, without its number, these are.
fn read_said<C: Conditions>(
    alloc: Global,
    said: &Chars,
    catalog: &Catalog,
    conditions: &C,
) -> Result<Option<Definition>, AllocError>
    ensures { IfOk result (λ found. Knows (λ d. d) (IsDefinitionText (C.wording conditions.now) catalog.now said.now) found) }
{
    read_definition(alloc, said.as_str(), catalog, conditions)
}

/// The definition whose lines, each with the number of its change and a line feed behind it, are at the front of the text, beside
/// this catalogue, which is as it was before; its number, and what is behind the last line of this number. None exactly where
/// there is none. There is never more than one. An `Err` is want of memory.
pub fn read_numbered<'a, C: Conditions>(
    alloc: Global,
    text: &'a str,
    catalog: &Catalog,
    conditions: &C,
) -> Result<Option<((u64, Definition), &'a str)>, NoMemory>
    ensures { IfOk result (λ found. Finds (λ n. n) (spec.IsNumberedText (C.wording conditions.now) catalog.now text.now) found) }
{
    let Some(found) = read_run(alloc, text)? else {
        return Ok(None);
    };
    let (run, rest) = found;
    let (number, said) = run;
    match read_said(alloc, &said, catalog, conditions)? {
        Some(definition) => Ok(Some(((number, definition), rest))),
        None => Ok(None),
    }
}
