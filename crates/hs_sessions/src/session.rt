// One session.
ghost use Rattle.std.specs.Prelude.{◌≡◌, ◌++◌, take, IfOk, OnOk, OnErr};
ghost use Rattle.hs_sessions.specs.declared.control.ControlReply.TheVariants as reply;

use crate::control::{Control, ControlReply};
use crate::modes::{Characteristics, Modes, joined};
use crate::savepoints::Savepoints;
use hs_base::{CommitNo, NoMemory};
use hs_plan::{Changes, Isolation, Modes as NewModes};
use hs_values::Name;
use std::alloc::Global;
use std::mem::replace;

/// An open transaction: how many commits there were at its beginning, and its level and access.
#[derive(Clone, Copy, Debug, PartialEq, Eq)]
pub struct Transaction {
    pub start: CommitNo,
    pub modes: Characteristics,
}

/// A session: its settings, what is named for its next transaction alone, and the open transaction with its changes and
/// savepoints.
#[derive(Drop)]
pub struct Session {
    pub autocommit: bool,
    pub modes: Characteristics,
    pub next: NewModes,
    pub transaction: Option<Transaction>,
    pub changes: Changes,
    pub savepoints: Savepoints,
}

const NO_MODES: NewModes = NewModes {
    isolation: None,
    access: None,
};

impl Session {
    ghost use Rattle.hs_sessions.specs.Modes.{with_modes, joined};
    ghost use Rattle.hs_sessions.specs.Settings as spec;

    /// A new session. Takes no memory.
    pub fn new(alloc: Global, level: Isolation) -> Session
        ensures { result ≡ spec.fresh level }
    {
        Session {
            autocommit: true,
            modes: Characteristics {
                isolation: level,
                read_only: false,
            },
            next: NO_MODES,
            transaction: None,
            changes: Changes::new(alloc),
            savepoints: Savepoints::new(alloc),
        }
    }

    /// The level and the access of the open transaction, else of the next one.
    pub fn modes(&self) -> Modes
        ensures { result ≡ spec.modes_of self.now }
    {
        let now = match self.transaction {
            Some(transaction) => transaction.modes,
            None => self.modes.with(self.next),
        };
        Modes {
            isolation: now.isolation,
            read_only: now.read_only,
            autocommit: self.autocommit,
        }
    }

    /// Begins a transaction. Takes no memory.
    pub fn begin(&mut self, start: CommitNo, alloc: Global)
        ensures { self.new ≡ spec.begun start self.old }
    {
        self.transaction = Some(Transaction {
            start,
            modes: self.modes.with(self.next),
        });
        self.next = NO_MODES;
        self.changes = Changes::new(alloc);
        self.savepoints = Savepoints::new(alloc);
    }

    /// Adds changes. After an `Err`, which is want of memory, nothing is changed.
    pub fn add(&mut self, more: Changes, alloc: Global) -> Result<(), NoMemory>
        ensures ok { OnOk result (self.new ≡ spec.added more self.old) }
        ensures err { OnErr result (self.new ≡ self.old) }
    {
        append(&mut self.changes, more, alloc)
    }

    /// Ends the transaction, and hands out its changes. Takes no memory.
    pub fn end(&mut self, alloc: Global) -> Changes
        ensures changes { result ≡ self.old.changes }
        ensures ended { self.new ≡ spec.ended self.old }
    {
        self.transaction = None;
        self.savepoints = Savepoints::new(alloc);
        replace(&mut self.changes, Changes::new(alloc))
    }

    /// Does a statement on settings or savepoints. After an `Err`, which is want of memory, nothing is changed.
    pub fn control(&mut self, control: &Control, alloc: Global) -> Result<ControlReply, NoMemory>
        ensures ok { IfOk result (λ told. spec.controlled control.now self.old ≡ (told, self.new)) }
        ensures err { OnErr result (self.new ≡ self.old) }
    {
        match control {
            Control::Autocommit(on) => Ok(self.set_autocommit(*on)),
            Control::Characteristics(new) => Ok(self.set_modes(*new)),
            Control::Transaction(new) => Ok(self.set_next(*new)),
            Control::Savepoint(name) => self.mark(name),
            Control::RollbackTo(name) => Ok(self.go_back(name, alloc)),
            Control::Release(name) => Ok(self.release(name)),
            Control::WriteDelayFalse => Ok(ControlReply::Ok),
        }
    }

    fn set_autocommit(&mut self, on: bool) -> ControlReply
        ensures { spec.unless_open self.old (record self.old { autocommit = on }) ≡ (result, self.new) }
    {
        if self.transaction.is_some() {
            return ControlReply::OpenTransaction;
        }
        self.autocommit = on;
        ControlReply::Ok
    }

    fn set_modes(&mut self, new: NewModes) -> ControlReply
        ensures { spec.unless_open self.old (record self.old { modes = with_modes new self.old.modes }) ≡ (result, self.new) }
    {
        if self.transaction.is_some() {
            return ControlReply::OpenTransaction;
        }
        self.modes = self.modes.with(new);
        ControlReply::Ok
    }

    fn set_next(&mut self, new: NewModes) -> ControlReply
        ensures { spec.unless_open self.old (record self.old { next = joined new self.old.next }) ≡ (result, self.new) }
    {
        if self.transaction.is_some() {
            return ControlReply::OpenTransaction;
        }
        self.next = joined(new, self.next);
        ControlReply::Ok
    }

    // Makes a savepoint, where a transaction is open.
    fn mark(&mut self, name: &Name) -> Result<ControlReply, NoMemory>
        ensures answer { IfOk result (λ told. told ≡ reply.Ok) }
        ensures ok { OnOk result (self.new ≡ spec.marked name.now self.old) }
        ensures err { OnErr result (self.new ≡ self.old) }
    {
        if self.transaction.is_some() {
            let len = self.changes.len();
            self.savepoints.add(name.copy()?, len)?;
        }
        Ok(ControlReply::Ok)
    }

    // The place of the open transaction's savepoint of this name.
    fn place_of(&self, name: &Name) -> Option<usize>
        ensures { result ≡ spec.place_of name.now self.now }
    {
        if self.transaction.is_none() {
            return None;
        }
        self.savepoints.place(name)
    }

    // Drops what came behind a savepoint.
    fn go_back(&mut self, name: &Name, alloc: Global) -> ControlReply
        ensures { spec.gone_back (spec.place_of name.now self.old) self.old ≡ (result, self.new) }
    {
        let Some(place) = self.place_of(name) else {
            return ControlReply::NoSavepoint;
        };
        let len = self.savepoints.changes_at(place);
        truncate(&mut self.changes, len, alloc);
        self.savepoints.keep(place);
        ControlReply::Ok
    }

    // Forgets a savepoint and those behind it.
    fn release(&mut self, name: &Name) -> ControlReply
        ensures { spec.released (spec.place_of name.now self.old) self.old ≡ (result, self.new) }
    {
        let Some(place) = self.place_of(name) else {
            return ControlReply::NoSavepoint;
        };
        self.savepoints.truncate(place);
        ControlReply::Ok
    }
}

// Adds changes at the end. After an `Err` nothing is changed.
fn append(changes: &mut Changes, more: Changes, alloc: Global) -> Result<(), NoMemory>
    ensures ok { OnOk result (changes.new ≡ changes.old ++ more) }
    ensures err { OnErr result (changes.new ≡ changes.old) }
{
    let mut all = replace(changes, Changes::new(alloc)).into_vec();
    let mut others = more.into_vec();
    let appended = all.append(&mut others);
    *changes = Changes::from_vec(all);
    appended?;
    Ok(())
}

// Lets the changes behind the first so many go.
fn truncate(changes: &mut Changes, len: usize, alloc: Global)
    ensures { changes.new ≡ take len changes.old }
{
    let mut all = replace(changes, Changes::new(alloc)).into_vec();
    all.truncate(len);
    *changes = Changes::from_vec(all);
}
