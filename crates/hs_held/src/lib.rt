//! The rows of a draft as those before a statement: its changes are made from them.
#![tactic(auto)]

use hs_base::{NoMemory, RowName, RowNos, TableNo};
use hs_cascade::RowsBefore;
use hs_draft::Draft;
use hs_values::Row;

/// The rows of a draft as they are, for a statement that comes next.
#[derive(Clone, Copy)]
pub struct RowsInDraft<'a> {
    pub draft: &'a Draft,
}

impl RowsBefore for RowsInDraft<'_> {
    ghost use Rattle.hs_draft.specs.Drafted.{after};

    ghost maps = { λ s. after s.draft.now };

    fn row(&self, name: RowName) -> Option<&Row> {
        self.draft.rows(name.table).get(name.row)
    }

    fn rows_with(&self, table: TableNo, columns: &[u32], key: &Row) -> Result<RowNos, NoMemory> {
        self.draft.rows(table).rows_with(columns, key)
    }

    fn index_among(&self, table: TableNo, columns: &[u32]) -> Option<&[u32]> {
        self.draft.rows(table).index_among(columns)
    }
}
