// Whether a definition is refused that the catalogue allows.
ghost use Rattle.std.specs.Prelude.{◌≡◌, ◌+◌, ◌^◌, ◌≤◌, Err, IfOk};
ghost use Rattle.hs_turns.specs.Database.{Database};
ghost use Rattle.hs_language.specs.Definitions as language;
ghost use Rattle.hs_language.specs.Words as words;
ghost use Rattle.hs_schema.specs.Catalogue.{after, IsBound, IsNext};
ghost use Rattle.hs_schema.specs.Whole.{IsWhole};
ghost use Rattle.hs_seated.specs.Rows.{AreRows};
ghost use Rattle.hs_redefining.specs.Judged.{answer_by, why_by, why_rows};

use crate::effect::effect_of;
use crate::longer::makes_long;
use crate::referencing::still_referenced;
use crate::violating::first_violated;
use crate::words::{long_row_words, violation_words};
use hs_base::NoMemory;
use hs_plan::Definition;
use hs_schema::Catalog;
use hs_seated::SeatedRows;
use hs_sentences::Violation;
use hs_values::{Chars, Name};
use std::alloc::Global;

// The catalogue behind a definition.
fn behind(cat: &Catalog, definition: &Definition, number: u64) -> Result<Catalog, NoMemory>
    requires bound { IsBound cat.now definition.now }
    requires next { IsNext cat.now definition.now number }
    ensures { IfOk result (λ behind. behind ≡ after cat.now definition.now number) }
{
    let mut behind = cat.copy()?;
    behind.define(definition, number)?;
    Ok(behind)
}

// Whether a definition may add a key to rows that there are, for which they have no index.
fn may_add_key(definition: &Definition) -> bool {
    match definition {
        Definition::AddConstraint { .. } => true,
        _ => false,
    }
}

// Why a definition is refused of which this is the first violated constraint, and a row too long or not.
fn why(alloc: Global, violation: &Option<Violation>, long: bool) -> Result<Option<Chars>, NoMemory>
    ensures { IfOk result (λ why. why ≡ why_by violation.now long) }
{
    match violation {
        Some(violation) => Ok(Some(violation_words(alloc, violation)?)),
        None => {
            if long {
                return Ok(Some(long_row_words(alloc)?));
            }
            Ok(None)
        }
    }
}

// Why rows stand against a definition, None where they don't.
fn refusal(
    cat: &Catalog,
    rows: &SeatedRows,
    definition: &Definition,
    number: u64,
) -> Result<Option<Chars>, NoMemory>
    requires bound { IsBound cat.now definition.now }
    requires next { IsNext cat.now definition.now number }
    ensures { (db : Database) → db.things ≡ cat.now → IsWhole db.things → AreRows db.rows rows.now → db.count + 1 ≡ number → IfOk result (λ why. why ≡ why_rows db definition.now) }
{
    let behind = behind(cat, definition, number)?;
    let effect = effect_of(cat, definition, number)?;
    let violation = first_violated(&behind, rows, &effect, may_add_key(definition))?;
    let long = makes_long(&behind, rows, &effect)?;
    let told = why(cat.alloc(), &violation, long)?;
    Ok(told)
}

fn answer(definition: Definition, why: Option<Chars>) -> Result<Definition, Chars>
    ensures { result ≡ answer_by definition why }
{
    match why {
        Some(why) => Err(why),
        None => Ok(definition),
    }
}

// What a definition defines against which no foreign key stands.
fn judge_rows(
    cat: &Catalog,
    rows: &SeatedRows,
    number: u64,
    definition: Definition,
) -> Result<Result<Definition, Chars>, NoMemory>
    requires bound { IsBound cat.now definition }
    requires next { IsNext cat.now definition number }
    ensures { (db : Database) → db.things ≡ cat.now → IsWhole db.things → AreRows db.rows rows.now → db.count + 1 ≡ number → IfOk result (λ told. told ≡ answer_by definition (why_rows db definition)) }
{
    let told = refusal(cat, rows, &definition, number)?;
    Ok(answer(definition, told))
}

// A foreign key of this name references what is dropped.
fn referenced(alloc: Global, name: Name) -> Result<Result<Definition, Chars>, NoMemory>
    ensures { IfOk result (λ told. told ≡ Err (words.violation_words (Violation.Child name))) }
{
    let child = Violation::Child(name);
    let words = violation_words(alloc, &child)?;
    Ok(Err(words))
}

/// What a bound definition defines over a database with so many changes, and over its rows, or why it is refused: a
/// foreign key references what it drops, the rows behind it violate a constraint, or one of them would be too long.
/// An `Err` is want of memory.
pub fn judge(
    cat: &Catalog,
    rows: &SeatedRows,
    count: u64,
    definition: Definition,
) -> Result<Result<Definition, Chars>, NoMemory>
    requires count { count ≤ 2 ^ 48 }
    requires bound { IsBound cat.now definition }
    requires next { IsNext cat.now definition (count + 1) }
    ensures { (db : Database) → db.things ≡ cat.now → IsWhole db.things → AreRows db.rows rows.now → db.count ≡ count → IfOk result (λ answer. answer ≡ language.judged db definition) }
{
    let first = still_referenced(cat, &definition)?;
    match first {
        Some(name) => referenced(cat.alloc(), name),
        None => judge_rows(cat, rows, count + 1, definition),
    }
}
