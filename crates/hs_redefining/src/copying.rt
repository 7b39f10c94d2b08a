// Copies of rows, as a definition leaves them.
ghost use Rattle.std.specs.Prelude.{◌≡◌, ℕ, IfOk, OnOk};
ghost use Rattle.std.specs.FinMap.{get};
ghost use Rattle.std.specs.List.{All};
ghost use Rattle.hs_changes.specs.Settings.{Maps, set_row};
ghost use Rattle.hs_turns.specs.Definitions.{with_rows};
ghost use Rattle.hs_draft.specs.Drafted.{after};
ghost use Rattle.hs_index.specs.Table.{Rows as TheRows};
ghost use Rattle.hs_seated.specs.Rows.{AreRows};
ghost use Rattle.hs_redefining.specs.Effects.{rows_by};
ghost use Rattle.hs_redefining.specs.Longer.{AreLonger, AreWithin, longer};

use crate::effect::Effect;
use crate::longer::longer_row;
use crate::tables::tables_of;
use hs_base::{NoMemory, RowNo, TableNo};
use hs_draft::Draft;
use hs_schema::Thing;
use hs_seated::SeatedRows;
use hs_values::{Row, Value};
use std::alloc::Global;
use std::slice::from_ref;

// Gives a row these values, or takes it out.
fn set(draft: &mut Draft, table: TableNo, row: RowNo, values: Option<Row>) -> Result<(), NoMemory>
    ensures { OnOk result ((t : ℕ) → after draft.new t ≡ set_row (after draft.old) (record { table = table.0; row = row.0; values = values }) t) }
{
    match values {
        Some(values) => draft.put(table, row, values),
        None => draft.take(table, row),
    }
}

// Copies a row, with more values behind its own.
fn copy_row(
    from: &Draft,
    table: TableNo,
    row: RowNo,
    more: &[Value],
    into: &mut Draft,
) -> Result<(), NoMemory>
    ensures { OnOk result ((t : ℕ) → after into.new t ≡ set_row (after into.old) (record { table = table.0; row = row.0; values = longer more.now (get (after from.now table.0) row.0) }) t) }
{
    let values = longer_row(from, table, row, more)?;
    set(into, table, row, values)
}

// Copies the rows of a table, each with more values behind its own.
fn copy_table(
    from: &SeatedRows,
    table: TableNo,
    more: &[Value],
    into: &mut Draft,
) -> Result<(), NoMemory>
    ensures { (maps : Maps) (grown : TheRows) → AreRows maps from.now → AreLonger more.now (maps table.0) grown → AreWithin (after into.old table.0) grown → OnOk result ((t : ℕ) → after into.new t ≡ with_rows table.0 grown (after into.old) t) }
{
    let mut last = None;
    while let Some(row) = from.draft.row_behind(table, last) {
        copy_row(&from.draft, table, row, more, into)?;
        last = Some(row);
    }
    Ok(())
}

// Copies the rows of a table as a definition leaves them.
fn copy_by(
    from: &SeatedRows,
    table: TableNo,
    effect: &Effect,
    into: &mut Draft,
) -> Result<(), NoMemory>
    ensures { (maps : Maps) → AreRows maps from.now → AreWithin (after into.old table.0) (rows_by effect.now maps table.0) → OnOk result ((t : ℕ) → after into.new t ≡ with_rows table.0 (rows_by effect.now maps table.0) (after into.old) t) }
{
    match effect {
        Effect::Nothing => copy_table(from, table, &[], into),
        Effect::Clears(own) => {
            if own.0 == table.0 {
                return Ok(());
            }
            copy_table(from, table, &[], into)
        }
        Effect::Lengthens(own, value) => {
            if own.0 == table.0 {
                return copy_table(from, table, from_ref(value), into);
            }
            copy_table(from, table, &[], into)
        }
    }
}

/// Copies of the rows of the tables to which these things belong, as a definition leaves them. An `Err` is want of
/// memory.
pub(crate) fn copied(
    alloc: Global,
    things: &[Thing],
    from: &SeatedRows,
    effect: &Effect,
) -> Result<Draft, NoMemory>
    ensures { (maps : Maps) → AreRows maps from.now → IfOk result (λ draft. All (λ t. after draft t.table.0 ≡ rows_by effect.now maps t.table.0) things.now) }
{
    let tables = tables_of(alloc, things)?;
    let mut draft = Draft::new(alloc);
    for table in tables.as_slice() {
        copy_by(from, *table, effect, &mut draft)?;
    }
    Ok(draft)
}
