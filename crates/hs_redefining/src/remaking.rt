// What a definition makes of the rows of a database.
ghost use Rattle.std.specs.Prelude.{◌≡◌, ◌∷◌, [], OnOk, IfOk};
ghost use Rattle.std.specs.FinMap.{empty, get};
ghost use Rattle.hs_changes.specs.Settings.{Maps, set_row};
ghost use Rattle.hs_turns.specs.Definitions.{lengthened, rows_after, with_rows};
ghost use Rattle.hs_seated.specs.Rows.{AreRows};
ghost use Rattle.hs_seated.specs.Seated.{IsSeated};
ghost use Rattle.hs_redefining.specs.Effects.{rows_by};
ghost use Rattle.hs_redefining.specs.Longer.{longer};

use crate::effect::{Effect, effect_of};
use crate::longer::longer_row;
use hs_base::{NoMemory, RowNo, TableNo};
use hs_plan::Definition;
use hs_schema::Catalog;
use hs_seated::{Seated, SeatedRows};
use hs_values::Value;
use std::slice::from_ref;

// Takes all rows of a table out.
fn clear(rows: &mut SeatedRows, table: TableNo) -> Result<(), NoMemory>
    ensures { (maps : Maps) → AreRows maps rows.old → OnOk result (AreRows (with_rows table.0 empty maps) rows.new) }
{
    let mut last = None;
    while let Some(row) = rows.draft.row_behind(table, last) {
        rows.set(table, row, None)?;
        last = Some(row);
    }
    Ok(())
}

// Puts a value behind those of a row.
fn lengthen_row(
    rows: &mut SeatedRows,
    table: TableNo,
    row: RowNo,
    value: &Value,
) -> Result<(), NoMemory>
    ensures { (maps : Maps) → AreRows maps rows.old → OnOk result (AreRows (set_row maps (record { table = table.0; row = row.0; values = longer (value.now ∷ []) (get (maps table.0) row.0) })) rows.new) }
{
    let values = longer_row(&rows.draft, table, row, from_ref(value))?;
    rows.set(table, row, values)
}

// Puts a value behind those of each row of a table.
fn lengthen(rows: &mut SeatedRows, table: TableNo, value: &Value) -> Result<(), NoMemory>
    ensures { (maps : Maps) → AreRows maps rows.old → OnOk result (AreRows (with_rows table.0 (lengthened value.now (maps table.0)) maps) rows.new) }
{
    let mut last = None;
    while let Some(row) = rows.draft.row_behind(table, last) {
        lengthen_row(rows, table, row, value)?;
        last = Some(row);
    }
    Ok(())
}

fn remake(rows: &mut SeatedRows, effect: &Effect) -> Result<(), NoMemory>
    ensures { (maps : Maps) → AreRows maps rows.old → OnOk result (AreRows (rows_by effect.now maps) rows.new) }
{
    match effect {
        Effect::Nothing => Ok(()),
        Effect::Clears(table) => clear(rows, *table),
        Effect::Lengthens(table, value) => lengthen(rows, *table, value),
    }
}

// The same, and the rows count as those before the changes to come.
fn remake_all(
    cat: &Catalog,
    rows: &mut SeatedRows,
    definition: &Definition,
    number: u64,
) -> Result<(), NoMemory>
    ensures { (maps : Maps) → AreRows maps rows.old → OnOk result (AreRows (rows_after cat.now definition.now number maps) rows.new) }
{
    let effect = effect_of(cat, definition, number)?;
    remake(rows, &effect)?;
    rows.accept();
    Ok(())
}

/// Makes of the rows of a database what a definition with this change number makes of them: a new table has none, and
/// a dropped one none any more; each row of a table that gets a column gets its default. `cat` is the catalogue
/// before the definition. No changes of a transaction are on the rows. An `Err` is want of memory, and then nothing
/// is known of the rows.
pub fn redefine(
    cat: &Catalog,
    seated: &mut Seated,
    definition: &Definition,
    number: u64,
) -> Result<(), NoMemory>
    ensures { (maps : Maps) → IsSeated maps [] seated.old → OnOk result (IsSeated (rows_after cat.now definition.now number maps) [] seated.new) }
{
    remake_all(cat, &mut seated.rows, definition, number)
}
