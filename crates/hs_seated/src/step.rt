// What leads back over a change.
use hs_base::{RowNo, TableNo};
use hs_values::Row;

/// What a row was before a change, None where it wasn't there, and how many rows were inserted before it.
#[derive(Drop)]
pub(crate) struct Step {
    pub(crate) table: TableNo,
    pub(crate) row: RowNo,
    pub(crate) old: Option<Row>,
    pub(crate) inserted: u64,
}
