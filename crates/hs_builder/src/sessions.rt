// The steps that build statements of sessions and transactions.
ghost use Rattle.hs_builder.specs.Steps.{Gives};
ghost use Rattle.hs_builder.specs.Sessions as spec;

use crate::build_fault::BuildFault;
use crate::stack::Stack;
use hs_ast::{Access, Identifier, Isolation, Modes, Stmt, TransactionControl};

pub fn begin_modes(modes: &mut Stack<Modes>) -> Result<(), BuildFault>
    ensures { Gives (spec.begin_modes modes.old) result modes.new }
{
    modes.push(Modes {
        isolation: None,
        access: None,
    })
}

pub fn level(modes: &mut Stack<Modes>, isolation: Isolation) -> Result<(), BuildFault>
    ensures { Gives (spec.level isolation modes.old) result modes.new }
{
    let written = modes.pop()?;
    modes.push(Modes {
        isolation: Some(isolation),
        access: written.access,
    })
}

pub fn access(modes: &mut Stack<Modes>, access: Access) -> Result<(), BuildFault>
    ensures { Gives (spec.access access modes.old) result modes.new }
{
    let written = modes.pop()?;
    modes.push(Modes {
        isolation: written.isolation,
        access: Some(access),
    })
}

pub fn set_transaction(
    modes: &mut Stack<Modes>,
    statements: &mut Stack<Stmt>,
) -> Result<(), BuildFault>
    ensures { Gives (spec.set_transaction (modes.old, statements.old)) result (modes.new, statements.new) }
{
    let written = modes.pop()?;
    statements.push(Stmt::SetTransaction(written))
}

pub fn set_characteristics(
    modes: &mut Stack<Modes>,
    statements: &mut Stack<Stmt>,
) -> Result<(), BuildFault>
    ensures { Gives (spec.set_characteristics (modes.old, statements.old)) result (modes.new, statements.new) }
{
    let written = modes.pop()?;
    statements.push(Stmt::SetCharacteristics(written))
}

pub fn start(modes: &mut Stack<Modes>, statements: &mut Stack<Stmt>) -> Result<(), BuildFault>
    ensures { Gives (spec.start (modes.old, statements.old)) result (modes.new, statements.new) }
{
    let written = modes.pop()?;
    statements.push(Stmt::StartTransaction(written))
}

pub fn savepoint(
    names: &mut Stack<Identifier>,
    statements: &mut Stack<Stmt>,
) -> Result<(), BuildFault>
    ensures { Gives (spec.savepoint (names.old, statements.old)) result (names.new, statements.new) }
{
    let name = names.pop()?;
    statements.push(Stmt::Savepoint(name.name))
}

pub fn rollback_to(
    names: &mut Stack<Identifier>,
    statements: &mut Stack<Stmt>,
) -> Result<(), BuildFault>
    ensures { Gives (spec.rollback_to (names.old, statements.old)) result (names.new, statements.new) }
{
    let name = names.pop()?;
    statements.push(Stmt::RollbackTo(name.name))
}

pub fn release(
    names: &mut Stack<Identifier>,
    statements: &mut Stack<Stmt>,
) -> Result<(), BuildFault>
    ensures { Gives (spec.release (names.old, statements.old)) result (names.new, statements.new) }
{
    let name = names.pop()?;
    statements.push(Stmt::ReleaseSavepoint(name.name))
}

pub fn commit(statements: &mut Stack<Stmt>) -> Result<(), BuildFault>
    ensures { Gives (spec.commit statements.old) result statements.new }
{
    statements.push(Stmt::Commit)
}

pub fn rollback(statements: &mut Stack<Stmt>) -> Result<(), BuildFault>
    ensures { Gives (spec.rollback statements.old) result statements.new }
{
    statements.push(Stmt::Rollback)
}

pub fn autocommit(statements: &mut Stack<Stmt>, on: bool) -> Result<(), BuildFault>
    ensures { Gives (spec.autocommit on statements.old) result statements.new }
{
    statements.push(Stmt::SetAutocommit(on))
}

pub fn control(statements: &mut Stack<Stmt>, control: TransactionControl) -> Result<(), BuildFault>
    ensures { Gives (spec.control control statements.old) result statements.new }
{
    statements.push(Stmt::SetControl(control))
}

pub fn default_level(statements: &mut Stack<Stmt>, isolation: Isolation) -> Result<(), BuildFault>
    ensures { Gives (spec.default_level isolation statements.old) result statements.new }
{
    statements.push(Stmt::SetDefaultLevel(isolation))
}

pub fn write_delay_false(statements: &mut Stack<Stmt>) -> Result<(), BuildFault>
    ensures { Gives (spec.write_delay_false statements.old) result statements.new }
{
    statements.push(Stmt::WriteDelayFalse)
}

pub fn checkpoint(statements: &mut Stack<Stmt>) -> Result<(), BuildFault>
    ensures { Gives (spec.checkpoint statements.old) result statements.new }
{
    statements.push(Stmt::Checkpoint)
}

pub fn shutdown(statements: &mut Stack<Stmt>) -> Result<(), BuildFault>
    ensures { Gives (spec.shutdown statements.old) result statements.new }
{
    statements.push(Stmt::Shutdown)
}
