// Waiters that the present pass has seen.
ghost use Rattle.std.specs.Prelude.{◌≡◌, ◌∷◌, ◌++◌, [], map, OnOk, OnErr};
ghost use Rattle.hs_claims.specs.Session.{IsSession};
ghost use Rattle.hs_turns.specs.Waiting.{is_waiting};
ghost use Rattle.hs_queue.specs.Entries.{entry_of};

use crate::entry::Entry;
use hs_base::{NoMemory, SessionNo};
use hs_claims::Blockers;
use std::alloc::Global;
use std::collections::VecDeque;
use std::marker::Model;

/// Waiters in the order in which they began to wait. Contracts see the list of them.
#[derive(Drop)]
pub struct Waiters {
    entries: VecDeque<Entry>,
    // The sessions of the entries.
    sessions: Blockers,
}

impl Model for Waiters {
    ghost use Rattle.std.specs.Prelude.{◌≡◌, List, ℕ, map};
    ghost use Rattle.hs_turns.specs.Waiting.{Entry as Waiter, is_waiting};

    ghost Value = { List Waiter };

    ghost use Rattle.hs_claims.specs.Blockers.{has};
    ghost use Rattle.hs_claims.specs.Session.{IsSession};
    ghost use Rattle.hs_queue.specs.Entries.{entry_of};

    ghost view = { λ w. map entry_of w.entries.items };

    ghost invariant = { λ w. (s : ℕ) → IsSession s → has w.sessions s ≡ is_waiting s (map entry_of w.entries.items) };
}

impl Waiters {
    /// Nobody waits. Takes no memory.
    pub fn new(alloc: Global) -> Waiters
        ensures { result ≡ [] }
    {
        Waiters {
            entries: VecDeque::new(alloc),
            sessions: Blockers::none(),
        }
    }

    /// Whether a session waits.
    pub fn has(&self, session: SessionNo) -> bool
        requires { IsSession session.0 }
        ensures { result ≡ is_waiting session.0 self.now }
    {
        self.sessions.has(session)
    }

    /// Adds an entry at the end. After an `Err`, which is want of memory, nothing is changed.
    pub fn push(&mut self, entry: Entry) -> Result<(), NoMemory>
        requires { IsSession entry.session.0 }
        ensures ok { OnOk result (self.new ≡ self.old ++ entry_of entry ∷ []) }
        ensures err { OnErr result (self.new ≡ self.old) }
    {
        let session = entry.session;
        self.entries.push_back(entry)?;
        self.sessions = self.sessions.with(session);
        Ok(())
    }

    /// Their entries, in their order. Takes no memory.
    pub fn into_entries(self) -> VecDeque<Entry>
        ensures { map entry_of result.items ≡ self }
    {
        self.entries
    }
}
