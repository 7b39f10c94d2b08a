// Foreign keys.
use hs_base::{RowNo, TableNo};
use hs_plan::ReferentialAction;
use hs_values::{Row, SqlType};
use sqlite_items::Items;

/// A foreign key with all that its actions need.
#[derive(Drop)]
pub struct Reference {
    /// Its place among the foreign keys of all tables, in the order of creation.
    pub place: u32,
    /// The table that has it, its columns there, which are places in a row from 0, and their types and defaults.
    pub child: TableNo,
    pub columns: Items<u32>,
    pub types: Items<SqlType>,
    pub defaults: Row,
    /// The table that it references, and a column there for each of its own.
    pub parent: TableNo,
    pub parent_columns: Items<u32>,
    pub on_delete: ReferentialAction,
    pub on_update: ReferentialAction,
}

/// A foreign key, by its place, and a child row on which it acted.
#[derive(Clone, Copy, Debug, PartialEq, Eq, PartialOrd, Ord)]
pub struct Acted {
    pub place: u32,
    pub row: RowNo,
}
