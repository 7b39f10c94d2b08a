// Statements that set up a session, and mark and take back parts of its transaction.
use hs_plan::Modes as NewModes;
use hs_values::Name;

/// A statement on a session's settings or savepoints, which never waits.
#[derive(Drop)]
pub enum Control {
    /// SET AUTOCOMMIT
    Autocommit(bool),
    /// SET SESSION CHARACTERISTICS AS TRANSACTION
    Characteristics(NewModes),
    /// SET TRANSACTION, and the modes of START TRANSACTION
    Transaction(NewModes),
    /// SAVEPOINT
    Savepoint(Name),
    /// ROLLBACK TO SAVEPOINT
    RollbackTo(Name),
    /// RELEASE SAVEPOINT
    Release(Name),
    /// SET FILES WRITE DELAY FALSE
    WriteDelayFalse,
}

/// What such a statement comes to.
#[derive(Clone, Copy, Debug, PartialEq, Eq)]
pub enum ControlReply {
    Ok,
    /// It sets what can't be set while a transaction is open, and one is.
    OpenTransaction,
    /// The open transaction has no savepoint of this name, or none is open.
    NoSavepoint,
}
