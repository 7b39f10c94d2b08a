// A row as it is stored.
use hs_base::{RowNo, TableNo};
use hs_values::Row;

/// A row of a MEMORY table, with its number.
#[derive(Drop)]
pub struct StoredRow {
    pub table: TableNo,
    pub row: RowNo,
    pub values: Row,
}
