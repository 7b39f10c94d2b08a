// Turns that need no more of the input.
ghost use Rattle.std.specs.Prelude.{◌≡◌, [], List, None, true, false, IfOk, OnErr};
ghost use Rattle.hs_queue.specs.Queues.{IsQueue};
ghost use Rattle.hs_seams.specs.World.{World};
ghost use Rattle.hs_turns.specs.Machine.{Machine};
ghost use Rattle.hs_turns.specs.Turns.{ready_among};
ghost use Rattle.hs_turns.specs.Waiting.{Entry as Queued};
ghost use Rattle.hs_scheduler.specs.Standing.{IsMachine, IsResting};
ghost use Rattle.hs_scheduler.specs.Turned.{IsStirred};

use crate::scheduler::Scheduler;
use hs_base::NoMemory;
use hs_queue::Waiters;
use hs_run::Gathered;
use hs_seams::Engine;
use std::mem::replace;

impl<E: Engine> Scheduler<E> {
    // Attempts the next waiter of the present pass again, and answers whether there was one.
    fn retry(&mut self, gathered: &mut Gathered) -> Result<bool, NoMemory>
        requires machine { (w : World) × (m : Machine) × IsMachine E.Engine self.old w m }
        ensures turned { (w : World) (m : Machine) → IsMachine E.Engine self.old w m → IfOk result (λ more. more ≡ true → IsStirred E.Engine w m self.new gathered.old gathered.new) }
        ensures none { IfOk result (λ more. more ≡ false → (self.old.pass.items ≡ []) × ((self.new ≡ self.old) × (gathered.new ≡ gathered.old))) }
        ensures err { OnErr result (gathered.new ≡ gathered.old) }
    {
        if self.pass.is_empty() {
            return Ok(false);
        }
        let Some(entry) = self.pass.pop_front() else {
            return Ok(false);
        };
        self.attempt(false, entry, gathered)?;
        Ok(true)
    }

    // Begins a pass over the waiters, where one is due, and answers whether one was. Takes no memory.
    fn restart(&mut self) -> bool
        ensures turned { (w : World) (m : Machine) → IsMachine E.Engine self.old w m → self.old.pass.items ≡ [] → result ≡ true → (g : Gathered) → IsStirred E.Engine w m self.new g g }
        ensures none { result ≡ false → (self.old.again ≡ false) × (self.new ≡ self.old) }
    {
        if !self.again {
            return false;
        }
        let seen = replace(&mut self.seen, Waiters::new(self.alloc));
        self.pass = seen.into_entries();
        self.again = false;
        true
    }

    // Attempts the first queued entry whose session doesn't wait, and answers whether there was one.
    fn begin(&mut self, gathered: &mut Gathered) -> Result<bool, NoMemory>
        requires machine { (w : World) × (m : Machine) × IsMachine E.Engine self.old w m }
        ensures turned { (w : World) (m : Machine) → IsMachine E.Engine self.old w m → self.old.pass.items ≡ [] → self.old.again ≡ false → IfOk result (λ more. more ≡ true → IsStirred E.Engine w m self.new gathered.old gathered.new) }
        ensures none { IfOk result (λ more. more ≡ false → ((queue : List Queued) → IsQueue self.old.queue queue → ready_among self.old.seen queue ≡ None) × ((self.new ≡ self.old) × (gathered.new ≡ gathered.old))) }
        ensures err { OnErr result (gathered.new ≡ gathered.old) }
    {
        let Some(entry) = self.queue.take_ready(&self.seen) else {
            return Ok(false);
        };
        self.attempt(true, entry, gathered)?;
        Ok(true)
    }

    // Does the next turn that needs no more of the input, and answers whether there was one.
    pub(crate) fn stir(&mut self, gathered: &mut Gathered) -> Result<bool, NoMemory>
        requires machine { (w : World) × (m : Machine) × IsMachine E.Engine self.old w m }
        ensures turned { (w : World) (m : Machine) → IsMachine E.Engine self.old w m → IfOk result (λ more. more ≡ true → IsStirred E.Engine w m self.new gathered.old gathered.new) }
        ensures none { IfOk result (λ more. more ≡ false → IsResting self.new × ((self.new ≡ self.old) × (gathered.new ≡ gathered.old))) }
        ensures err { OnErr result (gathered.new ≡ gathered.old) }
    {
        if self.retry(gathered)? {
            return Ok(true);
        }
        if self.restart() {
            return Ok(true);
        }
        self.begin(gathered)
    }
}
