// Statements that name nothing of the catalogue.
ghost use Rattle.std.specs.Prelude.{◌≡◌, IfOk};
ghost use Rattle.hs_statements.specs.Statements as spec;
ghost use Rattle.hs_statements.specs.Statements.{MeansDefinition, MeansSession};

use hs_ast::{Isolation, TransactionControl, Word};
use hs_plan::{BindFault, Definition, Plan, SessionStatement};
use hs_values::Name;
use std::alloc::{AllocError, Global};

/// A statement that names nothing.
pub(crate) fn said(statement: SessionStatement) -> Result<Plan, BindFault>
    ensures { MeansSession statement result }
{
    Ok(Plan::Session(statement))
}

/// The name of a savepoint.
pub(crate) fn name_of(word: &Word, alloc: Global) -> Result<Name, AllocError>
    ensures { IfOk result (λ name. name ≡ word.now) }
{
    Name::from_text(alloc, word.as_str())
}

/// SET DATABASE TRANSACTION CONTROL.
pub(crate) fn set_control(control: TransactionControl) -> Result<Plan, BindFault>
    ensures { MeansDefinition (Definition.SetControl control) result }
{
    Ok(Plan::Define(Definition::SetControl(control)))
}

fn is_serializable(isolation: Isolation) -> bool
    ensures { result ≡ spec.is_serializable isolation }
{
    match isolation {
        Isolation::ReadCommitted => false,
        Isolation::RepeatableRead | Isolation::Serializable => true,
    }
}

/// SET DATABASE DEFAULT ISOLATION LEVEL.
pub(crate) fn set_level(isolation: Isolation) -> Result<Plan, BindFault>
    ensures { MeansDefinition (Definition.SetDefaultLevel (spec.is_serializable isolation)) result }
{
    Ok(Plan::Define(Definition::SetDefaultLevel {
        serializable: is_serializable(isolation),
    }))
}
