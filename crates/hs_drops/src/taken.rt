// Which names are taken.
ghost use Rattle.std.specs.Prelude.{◌≡◌, is_some};
ghost use Rattle.hs_schema.specs.Catalogue.{number_of, owner_of};

use hs_schema::Catalog;

/// Whether a table has this name. Takes no memory.
pub fn is_table(catalog: &Catalog, name: &str) -> bool
    ensures { result ≡ is_some (number_of catalog.now name.now) }
{
    catalog.table(name).is_some()
}

/// Whether a constraint or an index has this name. Takes no memory.
pub fn is_owned(catalog: &Catalog, name: &str) -> bool
    ensures { result ≡ is_some (owner_of catalog.now name.now) }
{
    catalog.order_of(name).is_some()
}
