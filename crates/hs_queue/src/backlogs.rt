// The queue.
ghost use Rattle.std.specs.Prelude.{◌≡◌, ◌≤◌, ◌∷◌, ◌++◌, ℕ, List, [], length, None, OnOk, IfSome, IfNone};
ghost use Rattle.hs_claims.specs.Session.{IsSession};
ghost use Rattle.hs_turns.specs.Turns.{ready_among};
ghost use Rattle.hs_turns.specs.Waiting.{Entry as Queued};
ghost use Rattle.hs_queue.specs.Entries.{entry_of};
ghost use Rattle.hs_queue.specs.Queues.{IsQueue, IsTaken};

use crate::entry::Entry;
use crate::lanes::Lanes;
use crate::waiters::Waiters;
use hs_base::NoMemory;
use std::alloc::Global;

/// Queued entries: for each session its own, in their order. So one look at each session finds the first entry whose
/// session doesn't wait.
#[derive(Drop)]
pub struct Backlogs {
    pub lanes: Lanes,
    // The ticket of the next entry.
    pub next: u64,
}

impl Backlogs {
    /// No entry. Takes no memory.
    #[tactic(auto, using(crate::proofs::Whole::none_queued))]
    pub fn new(alloc: Global) -> Backlogs
        ensures queue { IsQueue result [] }
        ensures none { result.lanes ≡ [] }
    {
        Backlogs {
            lanes: Lanes::new(alloc),
            next: 0,
        }
    }

    /// Adds an entry behind all others. An `Err` is want of memory, as is that of a queue that 2^64 entries went through.
    pub fn push(&mut self, entry: Entry, alloc: Global) -> Result<(), NoMemory>
        requires { IsSession entry.session.0 }
        ensures ok { (queue : List Queued) → IsQueue self.old queue → OnOk result (IsQueue self.new (queue ++ entry_of entry ∷ [])) }
        ensures few { (n : ℕ) → length self.old.lanes ≤ n → entry.session.0 ≤ n → length self.new.lanes ≤ n }
    {
        let ticket = self.next;
        let Some(next) = ticket.checked_add(1) else {
            return Err(NoMemory);
        };
        self.lanes.push(ticket, entry, alloc)?;
        self.next = next;
        Ok(())
    }

    /// Takes the first entry whose session doesn't wait: None exactly where there is none. Takes no memory.
    pub fn take_ready(&mut self, waiters: &Waiters) -> Option<Entry>
        ensures none { IfNone result (self.new ≡ self.old) }
        ensures nothing { IfNone result ((queue : List Queued) → IsQueue self.old queue → ready_among waiters.now queue ≡ None) }
        ensures some { IfSome result (λ entry. (queue : List Queued) → IsQueue self.old queue → IsTaken waiters.now queue (entry_of entry) self.new) }
        ensures known { IfSome result (λ entry. (1 ≤ entry.session.0) × (entry.session.0 ≤ length self.old.lanes)) }
        ensures same { length self.new.lanes ≡ length self.old.lanes }
    {
        let at = self.lanes.first_ready(waiters)?;
        let first = self.lanes.pop_at(at)?;
        Some(first.entry)
    }
}
