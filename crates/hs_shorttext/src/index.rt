// What CREATE INDEX defines.
use hs_values::Name;
use sqlite_items::Items;

/// An index as CREATE INDEX defines it.
#[derive(Drop)]
pub struct NewIndex {
    pub name: Name,
    pub table: Name,
    /// Places in the table, from 0.
    pub columns: Items<u32>,
}
