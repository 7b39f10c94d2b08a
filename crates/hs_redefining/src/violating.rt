// The first constraint that rows violate behind a definition.
ghost use Rattle.std.specs.Prelude.{◌≡◌, true, [], None, Some, IfOk};
ghost use Rattle.std.specs.FinMap.{empty};
ghost use Rattle.std.specs.List.{All};
ghost use Rattle.hs_changes.specs.Settings.{Maps};
ghost use Rattle.hs_draft.specs.Drafted.{after};
ghost use Rattle.hs_language.specs.Validity.{lets_pass};
ghost use Rattle.hs_seated.specs.Rows.{AreRows};
ghost use Rattle.hs_sentences.specs.Violations as spec;
ghost use Rattle.hs_redefining.specs.Effects.{rows_by, told_by};
ghost use Rattle.hs_redefining.specs.Told as told;

use crate::copying::copied;
use crate::effect::Effect;
use crate::indexing::index_from;
use crate::tables::has_thing;
use hs_base::{NoMemory, TableNo};
use hs_checks::Conditions;
use hs_draft::{Draft, whole_violated};
use hs_schema::{Catalog, Part, Thing};
use hs_seated::SeatedRows;
use hs_sentences::Violation;
use hs_values::Name;

// ---- over all rows

// Whether a table has no rows.
fn has_none(rows: &SeatedRows, table: TableNo) -> bool
    ensures { result ≡ true → (maps : Maps) → AreRows maps rows.now → maps table.0 ≡ empty }
{
    match rows.draft.row_behind(table, None) {
        Some(_) => false,
        None => true,
    }
}

// Whether the rows of a table can stay where they are, though it is to have none: there are none, or no thing tells
// of it.
fn may_stay(things: &[Thing], rows: &SeatedRows, table: TableNo) -> bool
    ensures { result ≡ true → (maps : Maps) → AreRows maps rows.now → All (λ t. maps t.table.0 ≡ rows_by (Effect.Clears table) maps t.table.0) things.now }
{
    if has_thing(things, table) {
        return has_none(rows, table);
    }
    true
}

// Whether the rows as they are tell what they tell behind a definition.
fn are_told(things: &[Thing], rows: &SeatedRows, effect: &Effect) -> bool
    ensures { result ≡ true → (maps : Maps) → AreRows maps rows.now → All (λ t. maps t.table.0 ≡ rows_by effect.now maps t.table.0) things.now }
{
    match effect {
        Effect::Nothing => true,
        Effect::Clears(table) => may_stay(things, rows, *table),
        Effect::Lengthens(_, _) => false,
    }
}

// The first that the rows of a draft violate as they stand.
fn first_in(cat: &Catalog, draft: &Draft) -> Result<Option<Violation>, NoMemory>
    ensures { (maps : Maps) → All (λ t. after draft.now t.table.0 ≡ maps t.table.0) cat.now → IfOk result (λ first. first ≡ spec.first_violated lets_pass cat.now (λ t. []) maps) }
{
    let alloc = cat.alloc();
    whole_violated(cat, draft, &Conditions { alloc })
}

// The first that copies of the rows violate, with indexes over all keys.
fn first_copied(
    cat: &Catalog,
    rows: &SeatedRows,
    effect: &Effect,
) -> Result<Option<Violation>, NoMemory>
    ensures { (maps : Maps) → AreRows maps rows.now → IfOk result (λ first. first ≡ spec.first_violated lets_pass cat.now (λ t. []) (rows_by effect.now maps)) }
{
    let mut draft = copied(cat.alloc(), cat.things(), rows, effect)?;
    index_from(cat, 0, &mut draft)?;
    first_in(cat, &draft)
}

// The first that rows violate as a definition leaves them, where none counts as put. `copies`: over copies, with
// indexes.
fn first_of(
    cat: &Catalog,
    rows: &SeatedRows,
    effect: &Effect,
    copies: bool,
) -> Result<Option<Violation>, NoMemory>
    ensures { (maps : Maps) → AreRows maps rows.now → IfOk result (λ first. first ≡ spec.first_violated lets_pass cat.now (λ t. []) (rows_by effect.now maps)) }
{
    if copies {
        return first_copied(cat, rows, effect);
    }
    if are_told(cat.things(), rows, effect) {
        return first_in(cat, &rows.draft);
    }
    first_copied(cat, rows, effect)
}

// ---- as it is told

// Whether a thing is the constraint of this name of a table.
fn is_own(thing: &Thing, table: TableNo, name: &Name) -> bool
    ensures { result ≡ told.is_own table.0 name.now thing.now }
{
    if table.0 != thing.table.0 {
        return false;
    }
    match &thing.part {
        Part::Table { .. } => false,
        Part::Column(_) => false,
        Part::Constraint(constraint) => name.as_str() == constraint.name.as_str(),
    }
}

fn has_own(things: &[Thing], table: TableNo, name: &Name) -> bool
    ensures { result ≡ told.has_own things.now table.0 name.now }
{
    things.iter().any(|thing| is_own(thing, table, name))
}

// How a violation is told, where the rows of a table count as put.
fn as_told(things: &[Thing], table: TableNo, violation: Violation) -> Violation
    ensures { result ≡ told.as_told things.now table.0 violation }
{
    match violation {
        Violation::Child(name) => {
            if has_own(things, table, &name) {
                return Violation::Parent(name);
            }
            Violation::Child(name)
        }
        Violation::Null(name) => Violation::Null(name),
        Violation::Check(name) => Violation::Check(name),
        Violation::Unique(name) => Violation::Unique(name),
        Violation::Parent(name) => Violation::Parent(name),
    }
}

fn told(things: &[Thing], effect: &Effect, violation: Violation) -> Violation
    ensures { Some result ≡ told_by effect.now things.now (Some violation) }
{
    match effect {
        Effect::Nothing => violation,
        Effect::Clears(_) => violation,
        Effect::Lengthens(table, _) => as_told(things, *table, violation),
    }
}

/// The first constraint that rows violate behind a definition that makes this of them: those that get a value count
/// as put, and no others. `cat` is the catalogue behind the definition. `copies`: it looks at copies of the rows,
/// with indexes over all keys, for keys that the rows have no index for. An `Err` is want of memory.
pub(crate) fn first_violated(
    cat: &Catalog,
    rows: &SeatedRows,
    effect: &Effect,
    copies: bool,
) -> Result<Option<Violation>, NoMemory>
    ensures { (maps : Maps) → AreRows maps rows.now → IfOk result (λ first. first ≡ told_by effect.now cat.now (spec.first_violated lets_pass cat.now (λ t. []) (rows_by effect.now maps))) }
{
    let first = first_of(cat, rows, effect, copies)?;
    match first {
        Some(violation) => Ok(Some(told(cat.things(), effect, violation))),
        None => Ok(None),
    }
}
