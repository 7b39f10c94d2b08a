// Queued entries, by their sessions.
ghost use Rattle.std.specs.Prelude.{◌≡◌, ◌≤◌, ◌<◌, ◌+◌, ◌∷◌, ◌++◌, ℕ, List, [], length, slice_set, OnOk, OnErr, IfSome, IfNone, if◌then◌else◌};
ghost use Rattle.hs_claims.specs.Session.{IsSession};
ghost use Rattle.hs_queue.specs.Lanes.{Grows, IsPopped, IsPushed, backlog};
ghost use Rattle.hs_queue.specs.Earliest.{IsFirst, lesser_of, ready_ticket};
ghost use Rattle.hs_queue.specs.Entries.{queued_of};

use crate::entry::Entry;
use crate::waiters::Waiters;
use hs_base::{NoMemory, SessionNo};
use std::alloc::Global;
use std::collections::VecDeque;
use std::marker::Model;

/// A queued entry. One that was queued later has a greater ticket.
#[derive(Drop)]
pub struct Ticketed {
    pub ticket: u64,
    pub entry: Entry,
}

/// For each session its queued entries, in their order. Contracts see a list for each session.
#[derive(Drop)]
pub struct Lanes {
    lists: Vec<VecDeque<Ticketed>>,
}

impl Model for Lanes {
    ghost use Rattle.std.specs.Prelude.{◌≡◌, ◌+◌, ◌≤◌, List, ℕ, map, length};
    ghost use Rattle.hs_turns.specs.Each.{Each};
    ghost use Rattle.hs_queue.specs.Lanes.{Queued, backlog};
    ghost use Rattle.hs_queue.specs.Entries.{queued_of};

    ghost Value = { List (List Queued) };

    ghost view = { λ b. map (λ l. map queued_of l.items) b.lists.items };

    ghost invariant = { λ b. ((place : ℕ) → Each (λ q. q.entry.session ≡ place + 1) (backlog (map (λ l. map queued_of l.items) b.lists.items) place)) × (length b.lists.items ≤ 64) };
}

impl Lanes {
    /// No entry. Takes no memory.
    pub fn new(alloc: Global) -> Lanes
        ensures { result ≡ [] }
    {
        Lanes {
            lists: Vec::new(alloc),
        }
    }

    /// Adds an entry behind the others of its session. An `Err` is want of memory.
    #[tactic(auto, using(crate::proofs::Lists::put_is_pushed))]
    pub fn push(&mut self, ticket: u64, entry: Entry, alloc: Global) -> Result<(), NoMemory>
        requires { IsSession entry.session.0 }
        ensures ok { OnOk result (IsPushed self.old (queued_of (record { ticket = ticket; entry = entry })) self.new) }
        ensures few { (n : ℕ) → length self.old ≤ n → entry.session.0 ≤ n → length self.new ≤ n }
    {
        let len = entry.session.0 as usize;
        self.grow(len, alloc)?;
        self.push_at(len - 1, Ticketed { ticket, entry })
    }

    // There are so many lists at least, the new ones empty.
    #[tactic(auto, using(crate::proofs::Lists::grows_same))]
    fn grow(&mut self, len: usize, alloc: Global) -> Result<(), NoMemory>
        requires { len ≤ 64 }
        ensures grows { Grows self.old self.new }
        ensures enough { OnOk result (len ≤ length self.new) }
        ensures few { (n : ℕ) → length self.old ≤ n → len ≤ n → length self.new ≤ n }
    {
        while self.len() < len {
            self.add(alloc)?;
        }
        Ok(())
    }

    fn len(&self) -> usize
        ensures len { result ≡ length self.now }
        ensures few { result ≤ 64 }
    {
        self.lists.len()
    }

    // One more list, which is empty.
    fn add(&mut self, alloc: Global) -> Result<(), NoMemory>
        requires { length self.old < 64 }
        ensures ok { OnOk result (self.new ≡ self.old ++ [] ∷ []) }
        ensures err { OnErr result (self.new ≡ self.old) }
    {
        self.lists.push(VecDeque::new(alloc))?;
        Ok(())
    }

    fn push_at(&mut self, at: usize, entry: Ticketed) -> Result<(), NoMemory>
        requires within { at < length self.old }
        requires own { entry.entry.session.0 ≡ at + 1 }
        ensures ok { OnOk result (self.new ≡ slice_set self.old at (backlog self.old at ++ queued_of entry ∷ [])) }
        ensures len { length self.new ≡ length self.old }
    {
        let list = &mut self.lists[at];
        list.push_back(entry)?;
        Ok(())
    }

    /// Takes the first entry at a place. Takes no memory.
    pub fn pop_at(&mut self, at: usize) -> Option<Ticketed>
        requires { at < length self.old }
        ensures none { IfNone result ((backlog self.old at ≡ []) × (self.new ≡ self.old)) }
        ensures some { IfSome result (λ entry. IsPopped self.old at (queued_of entry) self.new) }
        ensures own { IfSome result (λ entry. entry.entry.session.0 ≡ at + 1) }
        ensures len { length self.new ≡ length self.old }
    {
        let list = &mut self.lists[at];
        list.pop_front()
    }

    /// The place of the session whose first entry is the first that is ready. Takes no memory.
    pub fn first_ready(&self, waiters: &Waiters) -> Option<usize>
        ensures { IsFirst (ready_ticket waiters.now self.now) (length self.now) result }
    {
        let mut best = None;
        for at in 0..self.len() {
            best = lesser(best, at, self.ready_ticket(at, waiters));
        }
        match best {
            Some((at, _)) => Some(at),
            None => None,
        }
    }

    // The ticket of the first entry of the session at a place, if it has one and doesn't wait.
    fn ready_ticket(&self, at: usize, waiters: &Waiters) -> Option<u64>
        requires within { at < length self.now }
        requires few { at < 64 }
        ensures { result ≡ ready_ticket waiters.now self.now at }
    {
        if waiters.has(SessionNo(at as u32 + 1)) {
            return None;
        }
        match self.lists[at].front() {
            Some(entry) => Some(entry.ticket),
            None => None,
        }
    }
}

// The place with the lesser number.
fn lesser(best: Option<(usize, u64)>, at: usize, number: Option<u64>) -> Option<(usize, u64)>
    ensures { result ≡ lesser_of best at number }
{
    let Some(number) = number else {
        return best;
    };
    match best {
        Some((_, least)) if least <= number => best,
        _ => Some((at, number)),
    }
}
