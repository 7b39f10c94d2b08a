// Statements.
use crate::change::{Delete, Insert, LockedTable, Update};
use crate::definition::{AlterTable, CreateIndex, CreateTable};
use crate::query::Query;
use crate::session::{Isolation, Modes, TransactionControl};
use crate::word::{Identifier, Word};
use sqlite_items::Items;

#[derive(Drop)]
pub enum Stmt {
    Query(Query),
    Insert(Insert),
    Update(Update),
    Delete(Delete),
    LockTable(Items<LockedTable>),
    CreateTable(CreateTable),
    CreateIndex(CreateIndex),
    AlterTable(AlterTable),
    DropTable(Identifier),
    DropIndex(Identifier),
    /// SET DATABASE TRANSACTION CONTROL
    SetControl(TransactionControl),
    /// SET DATABASE DEFAULT ISOLATION LEVEL, which has no REPEATABLE READ.
    SetDefaultLevel(Isolation),
    SetAutocommit(bool),
    /// SET SESSION CHARACTERISTICS AS TRANSACTION
    SetCharacteristics(Modes),
    SetTransaction(Modes),
    StartTransaction(Modes),
    Commit,
    Rollback,
    Savepoint(Word),
    RollbackTo(Word),
    ReleaseSavepoint(Word),
    /// SET FILES WRITE DELAY FALSE
    WriteDelayFalse,
    Checkpoint,
    Shutdown,
}
