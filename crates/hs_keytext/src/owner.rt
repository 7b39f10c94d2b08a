// The table that a constraint belongs to.
ghost use Rattle.std.specs.Prelude.{◌≡◌};
ghost use Rattle.hs_keytext.specs.ForeignKeys as spec;
ghost use Rattle.hs_keytext.specs.Owners.{seen};

use hs_plan::Column;
use hs_schema::Catalog;

/// The table that a constraint belongs to, as it stands with the constraint's definition, and the catalogue before that
/// definition.
#[derive(Clone, Copy)]
pub struct Owner<'a> {
    pub name: &'a str,
    pub columns: &'a [Column],
    pub catalog: &'a Catalog,
}

/// The columns of the table of this name: the owner's own, those of a table of the catalogue, or none.
pub(crate) fn parent_columns<'a>(owner: &Owner<'a>, name: &str) -> &'a [Column]
    ensures { result.now ≡ spec.parent_columns (seen owner.now) name.now }
{
    if name == owner.name {
        return owner.columns;
    }
    match owner.catalog.table(name) {
        Some(table) => table.columns.as_slice(),
        None => &[],
    }
}
