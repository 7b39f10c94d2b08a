// An attempt of an entry.
ghost use Rattle.std.specs.Prelude.{◌≡◌, ◌||◌, ◌&&◌, not, ◌∷◌, ◌++◌, [], IfOk, OnOk, OnErr, if◌then◌else◌};
ghost use Rattle.hs_claims.specs.Session.{IsSession};
ghost use Rattle.hs_futures.specs.Futures.{attempts};
ghost use Rattle.hs_lines.specs.Names.{IsKnown};
ghost use Rattle.hs_queue.specs.Entries.{entry_of};
ghost use Rattle.hs_seams.specs.World.{World};
ghost use Rattle.hs_turns.specs.Machine.{Machine};
ghost use Rattle.hs_scheduler.specs.Standing.{IsMachine};
ghost use Rattle.hs_scheduler.specs.Turned.{IsTried, IsTurned};

use crate::scheduler::Scheduler;
use hs_base::NoMemory;
use hs_gathering::{gather, print_words};
use hs_queue::Entry;
use hs_run::Gathered;
use hs_seams::{Attempted, Engine};

// Whether an entry is told anything: a waiter that still waits isn't.
fn is_told(is_first: bool, is_final: bool) -> bool
    ensures { result ≡ (is_first || is_final) }
{
    is_first || is_final
}

// Whether the waiters are to be attempted again: a transaction ended, or a waiter was answered.
fn goes_again(tried: Attempted, again: bool, is_first: bool) -> bool
    ensures { result ≡ ((tried.has_ended || again) || (tried.is_final && not is_first)) }
{
    (tried.has_ended || again) || (tried.is_final && !is_first)
}

impl<E: Engine> Scheduler<E> {
    // Attempts an entry, and writes what that tells and makes. An entry that waits isn't among the waiters yet.
    fn try_entry(&mut self, is_first: bool, entry: &Entry) -> Result<Attempted, NoMemory>
        requires machine { (w : World) × (m : Machine) × IsMachine E.Engine self.old w m }
        requires known { IsKnown self.old.names entry.now.session.0 }
        ensures tried { (w : World) (m : Machine) → IsMachine E.Engine self.old w m → IfOk result (λ tried. IsTried E.Engine self.new w m is_first (entry_of entry.now) tried.is_final) }
    {
        self.made.clear();
        let mut words = Vec::new(self.alloc);
        let tried = self
            .engine
            .attempt(is_first, entry, &self.names, &mut words, &mut self.made)?;
        let is_told = is_told(is_first, tried.is_final);
        print_words(
            is_told,
            entry.number,
            entry.session,
            words,
            &self.names,
            &mut self.text,
        )?;
        self.again = goes_again(tried, self.again, is_first);
        Ok(tried)
    }

    // An entry that isn't answered is the last of the waiters.
    fn keep(&mut self, is_final: bool, entry: Entry) -> Result<(), NoMemory>
        requires { IsSession entry.session.0 }
        ensures { OnOk result (self.new ≡ record self.old { seen = if is_final then self.old.seen else self.old.seen ++ entry_of entry ∷ [] }) }
    {
        if !is_final {
            self.seen.push(entry)?;
        }
        Ok(())
    }

    // Attempts an entry, for the first time or as a waiter, and gathers what the turn tells and makes.
    pub(crate) fn attempt(
        &mut self,
        is_first: bool,
        entry: Entry,
        gathered: &mut Gathered,
    ) -> Result<(), NoMemory>
        requires machine { (w : World) × (m : Machine) × IsMachine E.Engine self.old w m }
        requires known { IsKnown self.old.names entry.session.0 }
        ensures turned { (w : World) (m : Machine) → IsMachine E.Engine self.old w m → OnOk result (IsTurned E.Engine w m (attempts w is_first (entry_of entry) m) self.new gathered.old gathered.new) }
        ensures err { OnErr result (gathered.new ≡ gathered.old) }
    {
        let session = entry.session;
        let tried = self.try_entry(is_first, &entry)?;
        self.keep(tried.is_final, entry)?;
        gather(&self.text, &self.made, session, gathered)?;
        Ok(())
    }
}
