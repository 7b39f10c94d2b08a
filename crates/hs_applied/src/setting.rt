// Rows that are set.
ghost use Rattle.std.specs.Prelude.{◌≡◌, ◌∷◌, [], OnOk, OnErr};
ghost use Rattle.hs_applied.specs.Applied.{AreSet};
ghost use Rattle.hs_draft.specs.Drafted.{after, before};

use hs_base::{NoMemory, RowNo, TableNo};
use hs_draft::Draft;
use hs_values::Row;

/// Gives a row of a draft these values, or takes it out. After an `Err` the rows are as they were.
pub(crate) fn set(
    draft: &mut Draft,
    table: TableNo,
    row: RowNo,
    values: Option<Row>,
) -> Result<(), NoMemory>
    ensures set { OnOk result (AreSet (record { table = table.0; row = row.0; values = values } ∷ []) draft.old draft.new) }
    ensures err { OnErr result (after draft.new ≡ after draft.old) }
    ensures before { before draft.new ≡ before draft.old }
{
    match values {
        Some(values) => draft.put(table, row, values),
        None => draft.take(table, row),
    }
}
