// A change of a commit.
use crate::definition::Definition;
use hs_base::{RowNo, TableNo};
use hs_values::Row;
use sqlite_items::Boxed;

/// One change of a commit: a row that is inserted, a row's new values, a row that goes, or a definition.
#[derive(Drop)]
pub enum Change {
    Insert(TableNo, Row),
    Put(TableNo, RowNo, Row),
    Delete(TableNo, RowNo),
    Define(Boxed<Definition>),
}
