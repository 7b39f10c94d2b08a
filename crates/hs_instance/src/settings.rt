// The settings of a database behind a definition.
ghost use Rattle.std.specs.Prelude.{◌≡◌};
ghost use Rattle.hs_turns.specs.Definitions as spec;
ghost use Rattle.hs_sessions.specs.Book as sessions;

use hs_ast::{Isolation, TransactionControl};
use hs_claims::ControlKind;
use hs_plan::Definition;

/// The model of transactions that a database with this setting has.
pub fn kind_of(control: TransactionControl) -> ControlKind
    ensures { result ≡ spec.kind_of control }
{
    match control {
        TransactionControl::Locks => ControlKind::Locks,
        TransactionControl::MvLocks => ControlKind::MvLocks,
        TransactionControl::Mvcc => ControlKind::Mvcc,
    }
}

/// The model of transactions behind a definition, from that before it.
pub(crate) fn control_after(
    definition: &Definition,
    before: TransactionControl,
) -> TransactionControl
    ensures { spec.kind_of result ≡ spec.control_after definition.now (spec.kind_of before) }
{
    match definition {
        Definition::SetControl(control) => *control,
        Definition::CreateTable { .. } => before,
        Definition::DropTable(_) => before,
        Definition::AddColumn { .. } => before,
        Definition::AddConstraint { .. } => before,
        Definition::DropConstraint { .. } => before,
        Definition::CreateIndex { .. } => before,
        Definition::DropIndex(_) => before,
        Definition::SetDefaultLevel { .. } => before,
    }
}

fn default_level(serializable: bool) -> Isolation
    ensures { result ≡ sessions.default_level serializable }
{
    if serializable {
        Isolation::Serializable
    } else {
        Isolation::ReadCommitted
    }
}

/// The level of new sessions behind a definition, from that before it.
pub(crate) fn level_after(definition: &Definition, before: Isolation) -> Isolation
    ensures { result ≡ spec.level_after definition.now before }
{
    match definition {
        Definition::SetDefaultLevel { serializable } => default_level(*serializable),
        Definition::CreateTable { .. } => before,
        Definition::DropTable(_) => before,
        Definition::AddColumn { .. } => before,
        Definition::AddConstraint { .. } => before,
        Definition::DropConstraint { .. } => before,
        Definition::CreateIndex { .. } => before,
        Definition::DropIndex(_) => before,
        Definition::SetControl(_) => before,
    }
}
