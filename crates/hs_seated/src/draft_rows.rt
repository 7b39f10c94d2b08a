// Rows as queries look at them.
ghost use Rattle.std.specs.Prelude.{◌≡◌};
ghost use Rattle.std.specs.Option.{option_copied};
ghost use Rattle.hs_draft.specs.Drafted.{after};
ghost use Rattle.hs_rows.specs.Numbers.{row_in};
ghost use Rattle.hs_seated.specs.Looked.{looked_at, IsReady};

use hs_base::{NoMemory, RowNo, RowNos, TableNo};
use hs_draft::Draft;
use hs_expression::RowRef;
use hs_rel::EvalStop;
use hs_rows::Rows;
use hs_values::Row;

// A row that was brought.
#[derive(Drop)]
struct Brought<'a> {
    table: TableNo,
    row: RowNo,
    values: &'a Row,
}

/// The rows of a draft as they are, as queries look at them. Nothing is read from elsewhere, so that no look at a row
/// stops.
#[derive(Drop)]
pub struct DraftRows<'a> {
    draft: &'a Draft,
    brought: Option<Brought<'a>>,
}

// A row of a draft as it is, None where it isn't there.
fn row_at<'a>(draft: &'a Draft, table: TableNo, row: RowNo) -> Option<&'a Row>
    ensures { option_copied result ≡ row_in (after draft.now table.0) row.0 }
{
    draft.rows(table).get(row)
}

impl<'a> DraftRows<'a> {
    /// The rows of this draft. Takes no memory.
    pub fn new(draft: &'a Draft) -> DraftRows<'a>
        ensures rows { looked_at result ≡ after draft.now }
        ensures ready { IsReady result }
    {
        DraftRows {
            draft,
            brought: None,
        }
    }
}

impl Rows for DraftRows<'_> {
    ghost use Rattle.std.specs.Prelude.{◌≡◌, [], ⊤, refl};
    ghost use Rattle.std.proofs.Common.{◌∙◌};
    ghost use Rattle.hs_seated.specs.Looked.{looked_at, place_of, IsReady};

    ghost ready = { IsReady };

    ghost tells = { λ r. ⊤ };

    ghost tables = { looked_at };

    ghost brought = { λ r. place_of r.brought };

    ghost disk_faults = { λ r. 0 };

    ghost is_no_page = { λ r page. ⊥ };

    ghost borrows = { λ r. [] };

    ghost looked = { λ stop old new. looked_at new ≡ looked_at old };

    ghost not_looked = { λ a. refl };

    ghost looked_on = { λ stop a b c first later. later ∙ first };

    ghost tells_on = { λ a b looked tells. tt };

    fn next_row(&self, table: TableNo, after: Option<RowNo>) -> Option<RowNo> {
        self.draft.row_behind(table, after)
    }

    fn bring(&mut self, table: TableNo, row: RowNo) -> Result<bool, EvalStop> {
        match row_at(self.draft, table, row) {
            Some(values) => {
                self.brought = Some(Brought { table, row, values });
                Ok(true)
            }
            None => Ok(false),
        }
    }

    fn look(&self, _table: TableNo, _row: RowNo) -> RowRef<'_> {
        match &self.brought {
            Some(brought) => RowRef::Held(brought.values),
            None => unreachable!(),
        }
    }

    fn index_among(&self, table: TableNo, columns: &[u32]) -> Option<&[u32]> {
        self.draft.rows(table).index_among(columns)
    }

    fn rows_with(&self, table: TableNo, columns: &[u32], key: &Row) -> Result<RowNos, NoMemory> {
        self.draft.rows(table).rows_with(columns, key)
    }
}
