// Bound statements.
use crate::definition::Definition;
use crate::expression::Expr;
use crate::query::Query;
use hs_ast::Modes;
use hs_base::TableNo;
use hs_values::Name;
use sqlite_items::Items;

/// A value of `tuples` or of SET: an expression or DEFAULT.
#[derive(Drop)]
pub enum NewValue {
    Value(Expr),
    Default,
}

/// What an INSERT puts: rows of VALUES or the rows of a query.
#[derive(Drop)]
pub enum InsertSource {
    /// One row or more.
    Tuples(Items<Items<NewValue>>),
    Query(Query),
}

/// An INSERT (`insert`).
#[derive(Drop)]
pub struct Insert {
    pub table: TableNo,
    /// The place of each value's column in the table, as they are written. Columns that are left out get their
    /// defaults.
    pub columns: Items<u32>,
    pub source: InsertSource,
}

/// An assignment of SET (`update`).
#[derive(Drop)]
pub struct Assignment {
    /// The place of the column in the table.
    pub column: u32,
    pub value: NewValue,
}

/// An UPDATE (`update`).
#[derive(Drop)]
pub struct Update {
    pub table: TableNo,
    pub assignments: Items<Assignment>,
    pub filter: Option<Expr>,
}

/// A DELETE (`delete`).
#[derive(Drop)]
pub struct Delete {
    pub table: TableNo,
    pub filter: Option<Expr>,
}

/// A table of LOCK TABLE (`lock`), for READ or for WRITE.
#[derive(Clone, Copy)]
pub struct LockedTable {
    pub table: TableNo,
    pub write: bool,
}

/// A statement about sessions, transactions or files, which names nothing of the catalogue.
#[derive(Drop)]
pub enum SessionStatement {
    SetAutocommit(bool),
    SetCharacteristics(Modes),
    SetTransaction(Modes),
    StartTransaction(Modes),
    Commit,
    Rollback,
    Savepoint(Name),
    RollbackTo(Name),
    ReleaseSavepoint(Name),
    /// SET FILES WRITE DELAY FALSE
    WriteDelayFalse,
    Checkpoint,
    Shutdown,
}

/// What a statement means over a catalogue.
#[derive(Drop)]
pub enum Plan {
    Query(Query),
    Insert(Insert),
    Update(Update),
    Delete(Delete),
    LockTable(Items<LockedTable>),
    Define(Definition),
    Session(SessionStatement),
}
