// Levels and accesses of transactions.
ghost use Rattle.std.specs.Prelude.{◌≡◌, true};
ghost use Rattle.hs_claims.specs.Wants.{offers};
ghost use Rattle.hs_sessions.specs.Modes as spec;

use hs_ast::Access;
use hs_claims::{ControlKind, Level};
use hs_plan::{Isolation, Modes as NewModes};

/// The level and the access of a transaction.
#[derive(Clone, Copy, Debug, PartialEq, Eq)]
pub struct Characteristics {
    pub isolation: Isolation,
    pub read_only: bool,
}

impl Characteristics {
    /// The same, but for what is named anew.
    pub fn with(self, new: NewModes) -> Characteristics
        ensures { result ≡ spec.with_modes new self }
    {
        Characteristics {
            isolation: new.isolation.unwrap_or(self.isolation),
            read_only: match new.access {
                Some(access) => is_read_only(access),
                None => self.read_only,
            },
        }
    }
}

fn is_read_only(access: Access) -> bool
    ensures { result ≡ spec.is_read_only access }
{
    match access {
        Access::ReadOnly => true,
        Access::ReadWrite => false,
    }
}

/// What was named before, but for what is named anew.
pub(crate) fn joined(new: NewModes, old: NewModes) -> NewModes
    ensures { result ≡ spec.joined new old }
{
    NewModes {
        isolation: new.isolation.or(old.isolation),
        access: new.access.or(old.access),
    }
}

/// The modes of a session: the level and the access of its open transaction, else of the next one, and whether it is in
/// autocommit.
#[derive(Clone, Copy, Debug, PartialEq, Eq)]
pub struct Modes {
    pub isolation: Isolation,
    pub read_only: bool,
    pub autocommit: bool,
}

/// The level that a transaction of this isolation level has under a model, which is one that the model offers.
pub fn level_of(kind: ControlKind, isolation: Isolation) -> Level
    ensures level { result ≡ spec.level_of kind isolation }
    ensures offered { offers kind result ≡ true }
{
    match isolation {
        Isolation::ReadCommitted => Level::Rc,
        Isolation::RepeatableRead | Isolation::Serializable => match kind {
            ControlKind::Locks | ControlKind::MvLocks => Level::Ser,
            ControlKind::Mvcc => Level::Snap,
        },
    }
}
