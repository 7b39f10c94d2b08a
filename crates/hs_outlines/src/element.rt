// What a definition adds to a table.
use hs_ast::{ColumnDefinition, TableConstraint, TableElement};

/// The elements of CREATE TABLE, or what ADD adds.
#[derive(Clone, Copy)]
pub enum Elements<'a> {
    All(&'a [TableElement]),
    Column(&'a ColumnDefinition),
    Constraint(&'a TableConstraint),
}
