// Statements about sessions, transactions and files.
use crate::definitions::spell_name;
use hs_ast::Access;
use hs_plan::{Isolation, Modes, SessionStatement};
use hs_values::Name;
use std::alloc::AllocError;

fn isolation_word(isolation: Option<Isolation>) -> &'static str {
    match isolation {
        Some(Isolation::ReadCommitted) => " read-committed",
        Some(Isolation::RepeatableRead) => " repeatable-read",
        Some(Isolation::Serializable) => " serializable",
        None => "",
    }
}

fn access_word(access: Option<Access>) -> &'static str {
    match access {
        Some(Access::ReadOnly) => " read-only",
        Some(Access::ReadWrite) => " read-write",
        None => "",
    }
}

fn spell_modes(word: &str, modes: Modes, out: &mut String) -> Result<(), AllocError> {
    out.push_str(word)?;
    out.push_str(isolation_word(modes.isolation))?;
    out.push_str(access_word(modes.access))?;
    out.push(')')
}

fn spell_savepoint(word: &str, name: &Name, out: &mut String) -> Result<(), AllocError> {
    out.push_str(word)?;
    spell_name(name, out)?;
    out.push(')')
}

/// Adds a statement that names nothing of the catalogue.
pub(crate) fn spell_session(s: &SessionStatement, out: &mut String) -> Result<(), AllocError> {
    match s {
        SessionStatement::SetAutocommit(true) => out.push_str("(set-autocommit TRUE)"),
        SessionStatement::SetAutocommit(false) => out.push_str("(set-autocommit FALSE)"),
        SessionStatement::SetCharacteristics(m) => spell_modes("(set-characteristics", *m, out),
        SessionStatement::SetTransaction(m) => spell_modes("(set-transaction", *m, out),
        SessionStatement::StartTransaction(m) => spell_modes("(start-transaction", *m, out),
        SessionStatement::Commit => out.push_str("(commit)"),
        SessionStatement::Rollback => out.push_str("(rollback)"),
        SessionStatement::Savepoint(name) => spell_savepoint("(savepoint", name, out),
        SessionStatement::RollbackTo(name) => spell_savepoint("(rollback-to", name, out),
        SessionStatement::ReleaseSavepoint(name) => spell_savepoint("(release", name, out),
        SessionStatement::WriteDelayFalse => out.push_str("(write-delay-false)"),
        SessionStatement::Checkpoint => out.push_str("(checkpoint)"),
        SessionStatement::Shutdown => out.push_str("(shutdown)"),
    }
}
