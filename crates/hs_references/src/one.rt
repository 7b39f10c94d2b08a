// One foreign key.
ghost use Rattle.std.specs.Prelude.{◌≡◌, IfOk};
ghost use Rattle.hs_references.specs.Referenced as spec;

use crate::columns::{defaults_of, types_of};
use hs_actions::Reference;
use hs_base::{NoMemory, TableNo};
use hs_plan::ForeignKey;
use hs_schema::{Catalog, Table};
use sqlite_items::Items;

// The place of a constraint or an index among those of all tables.
fn place_of(cat: &Catalog, name: &str) -> Result<u32, NoMemory>
    ensures { IfOk result (λ place. place ≡ spec.place_of cat.now name.now) }
{
    let Some(place) = cat.order_of(name) else {
        return Ok(0);
    };
    if place > u32::MAX as usize {
        // A catalogue of so many is beyond all memory.
        return Err(NoMemory);
    }
    Ok(place as u32)
}

/// A foreign key of a table that references another one. An `Err` is want of memory.
pub(crate) fn reference(
    cat: &Catalog,
    table: &Table,
    parent: TableNo,
    name: &str,
    key: &ForeignKey,
) -> Result<Reference, NoMemory>
    ensures { IfOk result (λ made. made ≡ spec.reference_of cat.now table.now parent name.now key.now) }
{
    let alloc = cat.alloc();
    Ok(Reference {
        place: place_of(cat, name)?,
        child: table.number,
        columns: Items::from_slice(alloc, key.columns.as_slice())?,
        types: types_of(alloc, table.columns.as_slice(), key.columns.as_slice())?,
        defaults: defaults_of(alloc, table.columns.as_slice(), key.columns.as_slice())?,
        parent,
        parent_columns: Items::from_slice(alloc, key.parent_columns.as_slice())?,
        on_delete: key.on_delete,
        on_update: key.on_update,
    })
}
