// Types and defaults of columns.
ghost use Rattle.std.specs.Prelude.{◌≡◌, map, IfOk};
ghost use Rattle.hs_tentative.specs.NewRows.{default_of as the_default};
ghost use Rattle.hs_references.specs.Referenced as spec;

use hs_base::NoMemory;
use hs_newrows::default_of;
use hs_plan::Column;
use hs_values::{Row, SqlType};
use sqlite_items::Items;
use std::alloc::Global;

// The type of the column at a place, from 0.
fn type_of(columns: &[Column], place: u32) -> SqlType
    ensures { result ≡ spec.type_of columns.now place }
{
    match columns.get(place as usize) {
        Some(column) => column.data_type,
        None => SqlType::Big,
    }
}

/// The types of the columns at these places.
pub(crate) fn types_of(
    alloc: Global,
    columns: &[Column],
    places: &[u32],
) -> Result<Items<SqlType>, NoMemory>
    ensures { IfOk result (λ types. types ≡ map (spec.type_of columns.now) places.now) }
{
    let mut types = Vec::with_capacity(alloc, places.len())?;
    for place in places {
        types.push(type_of(columns, *place))?;
    }
    Ok(Items::from_vec(types))
}

/// The defaults of the columns at these places.
pub(crate) fn defaults_of(
    alloc: Global,
    columns: &[Column],
    places: &[u32],
) -> Result<Row, NoMemory>
    ensures { IfOk result (λ values. values ≡ map (the_default columns.now) places.now) }
{
    let mut values = Vec::with_capacity(alloc, places.len())?;
    for place in places {
        values.push(default_of(columns, *place)?)?;
    }
    Ok(Row::from_vec(values))
}
