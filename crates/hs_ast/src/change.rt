// Statements that write rows or lock tables.
use crate::expression::Expression;
use crate::query::Query;
use crate::word::Identifier;
use sqlite_items::Items;

/// A value that is written to a column.
#[derive(Drop)]
pub enum NewValue {
    Expression(Expression),
    /// DEFAULT and its place.
    Default(u32),
}

#[derive(Drop)]
pub enum InsertSource {
    /// One or more rows of VALUES.
    Tuples(Items<Items<NewValue>>),
    Query(Query),
}

#[derive(Drop)]
pub struct Insert {
    pub table: Identifier,
    /// Empty where no columns are written.
    pub columns: Items<Identifier>,
    pub source: InsertSource,
}

#[derive(Drop)]
pub struct Assignment {
    pub column: Identifier,
    pub value: NewValue,
}

#[derive(Drop)]
pub struct Update {
    pub table: Identifier,
    pub alias: Option<Identifier>,
    pub assignments: Items<Assignment>,
    pub filter: Option<Expression>,
}

#[derive(Drop)]
pub struct Delete {
    pub table: Identifier,
    pub alias: Option<Identifier>,
    pub filter: Option<Expression>,
}

/// A table of LOCK TABLE, for READ or for WRITE.
#[derive(Drop)]
pub struct LockedTable {
    pub table: Identifier,
    pub write: bool,
}
