// A MEMORY table by what the lines of its rows say of it.
use hs_base::TableNo;
use hs_plan::Column;

/// A MEMORY table by what the lines of its rows say of it.
#[derive(Clone, Copy)]
pub struct Shelf<'a> {
    pub table: TableNo,
    /// Its name as it is written.
    pub written: &'a str,
    pub columns: &'a [Column],
}
