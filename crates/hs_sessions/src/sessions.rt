// All sessions of a run.
ghost use Rattle.std.specs.Prelude.{◌≡◌, ◌<◌, ◌≤◌, ◌↔◌, [], None, Some, ℕ, Option, length, IsNone, IsSome, IfSome, IfOk, OnOk, OnErr};
ghost use Rattle.std.specs.Option.{option_map};
ghost use Rattle.hs_ast.specs.declared.session.Isolation.TheVariants.{ReadCommitted};
ghost use Rattle.hs_sessions.specs.Settings as settings;

use crate::control::{Control, ControlReply};
use crate::modes::Modes;
use crate::session::Session;
use hs_base::{CommitNo, NoMemory, SessionNo};
use hs_plan::{Changes, Isolation};
use hs_values::Name;
use indexmap::IndexSet;
use std::alloc::Global;
use std::marker::Model;

/// How many sessions a run has at most.
pub const MOST_SESSIONS: usize = 64;

/// The sessions of a run. Contracts see their names, the sessions in the order of their numbers, and the level that new
/// ones get. A call with a session's number needs one that `find` answered.
#[derive(Drop)]
pub struct Sessions {
    names: IndexSet<String>,
    sessions: Vec<Session>,
    level: Isolation,
    alloc: Global,
}

impl Model for Sessions {
    ghost use Rattle.std.specs.Prelude.{◌≡◌, ◌≤◌, map, length, string_bytes};
    ghost use Rattle.std.specs.Coded.{codes};
    ghost use Rattle.hs_plan.specs.contracts.expression.Expr as expression;
    ghost use Rattle.hs_sessions.specs.Book.{Book};

    ghost Value = { Book };

    ghost coded = { Prim.hlevel (codes, expression.the_row.coded) };

    ghost view = { λ s. record { names = map string_bytes s.names.keys; sessions = s.sessions.items; level = s.level } };

    ghost invariant = { λ s. (length s.names.keys ≡ length s.sessions.items) × (length s.sessions.items ≤ 64) };
}

impl Sessions {
    ghost use Rattle.hs_sessions.specs.Book as book;

    /// No sessions; new ones get READ COMMITTED. Takes no memory.
    pub fn new(alloc: Global) -> Sessions
        ensures { result ≡ record { names = []; sessions = []; level = ReadCommitted } }
    {
        Sessions {
            names: IndexSet::new(alloc),
            sessions: Vec::new(alloc),
            level: Isolation::ReadCommitted,
            alloc,
        }
    }

    /// The session of a name, which is made where the name is new: None exactly where there are 64 others. After an
    /// `Err`, which is want of memory, nothing is changed.
    pub fn find(&mut self, name: &Name) -> Result<Option<SessionNo>, NoMemory>
        ensures number { IfOk result (λ s. option_map (λ n. n.0) s ≡ (book.admitted name.now self.old).0) }
        ensures sessions { OnOk result (self.new ≡ (book.admitted name.now self.old).1) }
        ensures known { IfOk result (λ s. IfSome s (λ n. book.IsKnown self.new n.0)) }
        ensures err { OnErr result (self.new ≡ self.old) }
    {
        if let Some(number) = self.number_of(name.as_str()) {
            return Ok(Some(SessionNo(number)));
        }
        if self.len() >= MOST_SESSIONS {
            return Ok(None);
        }
        self.make(name)?;
        Ok(Some(SessionNo(self.len() as u32)))
    }

    /// How many there are.
    pub fn len(&self) -> usize
        ensures number { result ≡ length self.now.sessions }
        ensures few { result ≤ 64 }
    {
        self.sessions.len()
    }

    // The number of a name.
    fn number_of(&self, name: &str) -> Option<u32>
        ensures number { result ≡ book.number_in name.now self.now }
        ensures known { IfSome result (book.IsKnown self.now) }
    {
        match self.names.get_index_of(name) {
            Some(at) => Some(at as u32 + 1),
            None => None,
        }
    }

    // Makes a session of a new name.
    fn make(&mut self, name: &Name) -> Result<(), NoMemory>
        requires new { book.number_in name.now self.old ≡ None }
        requires few { length self.old.sessions < 64 }
        ensures ok { OnOk result (self.new ≡ book.with_new name.now self.old) }
        ensures err { OnErr result (self.new ≡ self.old) }
    {
        let key = name.copy()?.into_string();
        let alloc = self.alloc;
        self.sessions.push(Session::new(alloc, self.level))?;
        if self.names.insert(key).is_err() {
            let _back = self.sessions.pop();
            return Err(NoMemory);
        }
        Ok(())
    }

    /// Does a statement on a session's settings or savepoints. SAVEPOINT outside autocommit needs an open transaction,
    /// which is begun before. After an `Err`, which is want of memory, nothing is changed.
    pub fn control(
        &mut self,
        session: SessionNo,
        control: &Control,
    ) -> Result<ControlReply, NoMemory>
        requires known { book.IsKnown self.old session.0 }
        requires ready { settings.IsReady control.now (book.session_of self.old session.0) }
        ensures answer { IfOk result (λ told. told ≡ (settings.controlled control.now (book.session_of self.old session.0)).0) }
        ensures ok { OnOk result (self.new ≡ book.with_session session.0 (settings.controlled control.now (book.session_of self.old session.0)).1 self.old) }
        ensures err { OnErr result (self.new ≡ self.old) }
    {
        let alloc = self.alloc;
        let one = &mut self.sessions[session.0 as usize - 1];
        one.control(control, alloc)
    }

    /// The changes of a session's open transaction, and none where none is open. Takes no memory.
    pub fn changes(&self, session: SessionNo) -> &Changes
        requires { book.IsKnown self.now session.0 }
        ensures { result.now ≡ (book.session_of self.now session.0).changes }
    {
        &self.sessions[session.0 as usize - 1].changes
    }

    /// How many commits there were when a session's open transaction began: None exactly where none is open.
    pub fn open(&self, session: SessionNo) -> Option<CommitNo>
        requires { book.IsKnown self.now session.0 }
        ensures start { result ≡ settings.start_of (book.session_of self.now session.0) }
        ensures some { IsSome result ↔ IsSome (book.session_of self.now session.0).transaction }
        ensures none { IsNone result ↔ IsNone (book.session_of self.now session.0).transaction }
    {
        match self.sessions[session.0 as usize - 1].transaction {
            Some(transaction) => Some(transaction.start),
            None => None,
        }
    }

    /// The level and the access of a session's open transaction, else of its next one, and whether it is in autocommit.
    pub fn modes(&self, session: SessionNo) -> Modes
        requires { book.IsKnown self.now session.0 }
        ensures { result ≡ settings.modes_of (book.session_of self.now session.0) }
    {
        self.sessions[session.0 as usize - 1].modes()
    }

    /// Begins a transaction of a session, where none is open, after so many commits. Takes no memory.
    pub fn begin(&mut self, session: SessionNo, start: CommitNo)
        requires known { book.IsKnown self.old session.0 }
        requires none { IsNone (book.session_of self.old session.0).transaction }
        ensures { self.new ≡ book.with_session session.0 (settings.begun start (book.session_of self.old session.0)) self.old }
    {
        let alloc = self.alloc;
        let one = &mut self.sessions[session.0 as usize - 1];
        one.begin(start, alloc);
    }

    /// Adds changes to a session's open transaction. After an `Err`, which is want of memory, nothing is changed.
    pub fn add(&mut self, session: SessionNo, more: Changes) -> Result<(), NoMemory>
        requires known { book.IsKnown self.old session.0 }
        requires ongoing { IsSome (book.session_of self.old session.0).transaction }
        ensures ok { OnOk result (self.new ≡ book.with_session session.0 (settings.added more (book.session_of self.old session.0)) self.old) }
        ensures err { OnErr result (self.new ≡ self.old) }
    {
        let alloc = self.alloc;
        let one = &mut self.sessions[session.0 as usize - 1];
        one.add(more, alloc)
    }

    /// Ends a session's transaction, and hands out its changes. Takes no memory.
    pub fn end(&mut self, session: SessionNo) -> Changes
        requires { book.IsKnown self.old session.0 }
        ensures changes { result ≡ (book.session_of self.old session.0).changes }
        ensures ended { self.new ≡ book.with_session session.0 (settings.ended (book.session_of self.old session.0)) self.old }
    {
        let alloc = self.alloc;
        let one = &mut self.sessions[session.0 as usize - 1];
        one.end(alloc)
    }

    /// Sessions that are made from now on get SERIALIZABLE, or READ COMMITTED. Takes no memory.
    pub fn set_default(&mut self, serializable: bool)
        ensures { self.new ≡ record self.old { level = book.default_level serializable } }
    {
        self.level = if serializable {
            Isolation::Serializable
        } else {
            Isolation::ReadCommitted
        };
    }
}
