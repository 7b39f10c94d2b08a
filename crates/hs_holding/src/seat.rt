// One session and its open transaction.
ghost use Rattle.std.specs.Prelude.{◌≡◌, is_some, IfOk, OnOk};
ghost use Rattle.hs_sessions.specs.Settings.{controlled, ended};
ghost use Rattle.hs_holding.specs.Seats as spec;

use hs_base::{CommitNo, NoMemory};
use hs_claims::{ControlKind, Level};
use hs_models::reads_start;
use hs_plan::Changes;
use hs_sessions::{Control, ControlReply, Session, level_of};
use std::alloc::Global;

/// A session, and whether its open transaction ends with its first statement.
#[derive(Drop)]
pub struct Seat {
    pub session: Session,
    pub auto: bool,
}

/// The level and the access of a transaction, and whether it ends with its first statement.
#[derive(Clone, Copy, Debug, PartialEq, Eq)]
pub struct Own {
    pub level: Level,
    pub read_only: bool,
    pub auto: bool,
}

impl Seat {
    /// Whether a transaction is open.
    pub fn is_open(&self) -> bool
        ensures { result ≡ is_some self.now.session.transaction }
    {
        self.session.transaction.is_some()
    }

    /// The open transaction's under a model, or those of the one that a statement would begin.
    pub fn own(&self, kind: ControlKind) -> Own
        ensures { result ≡ spec.own_in kind self.now }
    {
        let modes = self.session.modes();
        let auto = if self.session.transaction.is_some() {
            self.auto
        } else {
            modes.autocommit
        };
        Own {
            level: level_of(kind, modes.isolation),
            read_only: modes.read_only,
            auto,
        }
    }

    /// How many commits there were at the beginning of the open transaction. None where there is none.
    pub fn start(&self) -> Option<CommitNo>
        ensures { result ≡ spec.start_in self.now }
    {
        self.session.transaction.map(|now| now.start)
    }

    /// Whether a transaction is open that reads the state behind so many commits.
    pub fn reads_from(&self, kind: ControlKind, start: CommitNo) -> bool
        ensures { result ≡ spec.reads_from kind start.0 self.now }
    {
        let own = self.own(kind);
        self.start() == Some(start) && reads_start(kind, own.level, own.read_only)
    }

    /// Whether a transaction is open that may conflict with commits since its beginning.
    pub fn may_conflict(&self, kind: ControlKind) -> bool
        ensures { result ≡ spec.may_conflict kind self.now }
    {
        let own = self.own(kind);
        self.is_open() && matches!(own.level, Level::Snap) && !own.read_only
    }

    // Begins a transaction. Takes no memory.
    pub(crate) fn begin(&mut self, auto: bool, start: CommitNo, alloc: Global)
        ensures { self.new ≡ spec.begun auto start self.old }
    {
        self.session.begin(start, alloc);
        self.auto = auto;
    }

    // Adds changes. An `Err` is want of memory.
    pub(crate) fn add(&mut self, changes: Changes, alloc: Global) -> Result<(), NoMemory>
        ensures { OnOk result (self.new ≡ spec.added changes self.old) }
    {
        self.session.add(changes, alloc)
    }

    // Ends the transaction. Takes no memory.
    pub(crate) fn end(&mut self, alloc: Global)
        ensures { self.new ≡ record self.old { session = ended self.old.session } }
    {
        let _changes = self.session.end(alloc);
    }

    // Does a statement on settings or savepoints. An `Err` is want of memory.
    pub(crate) fn control(
        &mut self,
        control: &Control,
        alloc: Global,
    ) -> Result<ControlReply, NoMemory>
        ensures answer { IfOk result (λ reply. reply ≡ (controlled control.now self.old.session).0) }
        ensures ok { OnOk result (self.new ≡ record self.old { session = (controlled control.now self.old.session).1 }) }
    {
        self.session.control(control, alloc)
    }
}
