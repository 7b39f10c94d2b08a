// What definitions of several lines define.
use hs_plan::{Column, Constraint, Storage};
use hs_values::Name;
use sqlite_items::Items;

/// A table as CREATE TABLE defines it.
#[derive(Drop)]
pub struct NewTable {
    pub storage: Storage,
    pub name: Name,
    pub columns: Items<Column>,
    /// In the order of the text.
    pub constraints: Items<Constraint>,
}

/// A column as ADD COLUMN defines it.
#[derive(Drop)]
pub struct AddedColumn {
    pub column: Column,
    /// Its own, in the order of the text.
    pub constraints: Items<Constraint>,
}
