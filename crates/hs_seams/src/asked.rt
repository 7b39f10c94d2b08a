// What an entry asks for.
use hs_ast::{Modes, Stmt};
use hs_sessions::Control;
use hs_values::Chars;

/// What an entry asks for, by its text alone.
#[derive(Drop)]
pub enum Asked {
    /// Nothing, as it is no statement, for this reason, which stands behind `refused `.
    Faulty(Chars),
    /// A query, a change of rows or LOCK TABLE.
    OfData(Stmt),
    /// A change of the catalogue or of the database's settings.
    OfDefinition(Stmt),
    /// START TRANSACTION
    Starts(Modes),
    /// COMMIT
    Commits,
    /// ROLLBACK
    RollsBack,
    /// What a session does to its own settings and savepoints.
    OnSettings(Control),
}
