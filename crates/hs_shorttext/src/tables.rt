// Tables of a catalogue by their names.
ghost use Rattle.std.specs.Prelude.{◌≡◌};
ghost use Rattle.hs_shorttext.specs.Tables as spec;

use hs_plan::Column;
use hs_schema::Catalog;

/// The columns of the catalogue's table of this name, and none where there is no such table.
pub fn columns_of<'a>(catalog: &'a Catalog, name: &str) -> &'a [Column]
    ensures { result.now ≡ spec.columns_of catalog.now name.now }
{
    match catalog.table(name) {
        Some(table) => table.columns.as_slice(),
        None => &[],
    }
}
