// The parents of foreign keys.
ghost use Rattle.std.specs.Prelude.{◌≡◌};
ghost use Rattle.hs_sentences.specs.Violations.{parents_of};
ghost use Rattle.hs_schema.specs.Catalogue.{number_of};
ghost use Rattle.hs_draft.specs.Drafted.{after};

use crate::draft::Draft;
use hs_base::TableNo;
use hs_keyed::KeyedRows;
use hs_plan::ForeignKey;
use hs_schema::Catalog;

/// The number of the table that a foreign key references.
pub(crate) fn parent_number(catalog: &Catalog, key: &ForeignKey) -> Option<TableNo>
    ensures { result ≡ number_of catalog.now key.now.parent }
{
    match catalog.table(key.parent.as_str()) {
        Some(table) => Some(table.number),
        None => None,
    }
}

/// The rows of the table that a foreign key references, as they are.
pub(crate) fn parents<'a>(draft: &'a Draft, catalog: &Catalog, key: &ForeignKey) -> &'a KeyedRows
    ensures { result.now ≡ parents_of catalog.now (after draft.now) key.now }
{
    draft.rows_of(parent_number(catalog, key))
}
