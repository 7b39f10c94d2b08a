// Rows with more values behind their own.
ghost use Rattle.std.specs.Prelude.{◌≡◌, ◌++◌, ◌∷◌, [], false, IfOk};
ghost use Rattle.std.specs.FinMap.{entries, get};
ghost use Rattle.std.specs.List.{list_any};
ghost use Rattle.std.specs.Option.{option_map_or};
ghost use Rattle.hs_changes.specs.Settings.{Maps};
ghost use Rattle.hs_draft.specs.Drafted.{after};
ghost use Rattle.hs_rowlimit.specs.Long as limit;
ghost use Rattle.hs_seated.specs.Rows.{AreRows};
ghost use Rattle.hs_redefining.specs.Effects.{are_long};
ghost use Rattle.hs_redefining.specs.Longer.{has_longer, longer};

use crate::effect::Effect;
use hs_base::{NoMemory, RowNo, TableNo};
use hs_draft::Draft;
use hs_plan::Change;
use hs_rowlimit::has_long_row;
use hs_schema::Catalog;
use hs_seated::SeatedRows;
use hs_values::{Row, Value};
use std::slice::from_ref;

// A row with more values behind its own.
fn with_more(row: &Row, more: &[Value]) -> Result<Row, NoMemory>
    ensures { IfOk result (λ made. made ≡ row.now ++ more.now) }
{
    let mut made = row.copy()?;
    for value in more {
        made.push(value.copy()?)?;
    }
    Ok(made)
}

/// A row of a table with more values behind its own, None where it isn't there.
pub(crate) fn longer_row(
    draft: &Draft,
    table: TableNo,
    row: RowNo,
    more: &[Value],
) -> Result<Option<Row>, NoMemory>
    ensures { IfOk result (λ made. made ≡ longer more.now (get (after draft.now table.0) row.0)) }
{
    match draft.rows(table).get(row) {
        Some(values) => Ok(Some(with_more(values, more)?)),
        None => Ok(None),
    }
}

// Whether a row of a table is too long.
fn is_long(cat: &Catalog, table: TableNo, row: RowNo, values: Row) -> bool
    ensures { result ≡ limit.is_long cat.now table values }
{
    let change = Change::Put(table, row, values);
    has_long_row(cat, from_ref(&change))
}

// Whether a row is too long once it has one value more.
fn becomes_long(
    cat: &Catalog,
    draft: &Draft,
    table: TableNo,
    row: RowNo,
    value: &Value,
) -> Result<bool, NoMemory>
    ensures { IfOk result (λ is. is ≡ option_map_or (limit.is_long cat.now table) (longer (value.now ∷ []) (get (after draft.now table.0) row.0)) false) }
{
    match longer_row(draft, table, row, from_ref(value))? {
        Some(values) => Ok(is_long(cat, table, row, values)),
        None => Ok(false),
    }
}

// Whether a row of a table is too long once it has one value more.
fn any_long(
    cat: &Catalog,
    rows: &SeatedRows,
    table: TableNo,
    value: &Value,
) -> Result<bool, NoMemory>
    ensures { (maps : Maps) → AreRows maps rows.now → IfOk result (λ is. is ≡ has_longer (limit.is_long cat.now table) value.now (maps table.0)) }
{
    let mut last = None;
    while let Some(row) = rows.draft.row_behind(table, last) {
        if becomes_long(cat, &rows.draft, table, row, value)? {
            return Ok(true);
        }
        last = Some(row);
    }
    Ok(false)
}

/// Whether a row that gets a value is too long then. `cat` is the catalogue behind the definition. An `Err` is want
/// of memory.
pub(crate) fn makes_long(
    cat: &Catalog,
    rows: &SeatedRows,
    effect: &Effect,
) -> Result<bool, NoMemory>
    ensures { (maps : Maps) → AreRows maps rows.now → IfOk result (λ is. is ≡ are_long effect.now cat.now maps) }
{
    match effect {
        Effect::Nothing => Ok(false),
        Effect::Clears(_) => Ok(false),
        Effect::Lengthens(table, value) => any_long(cat, rows, *table, value),
    }
}
