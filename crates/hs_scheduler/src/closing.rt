// The end of the input.
ghost use Rattle.std.specs.Prelude.{◌≡◌, ◌≤◌, ◌==◌, ◌||◌, not, [], None, Some, true, false, IfOk, IfSome, OnOk, OnErr, if◌then◌else◌};
ghost use Rattle.std.specs.Option.{option_map};
ghost use Rattle.hs_claims.specs.Session.{IsSession};
ghost use Rattle.hs_lines.specs.Told.{lines_of};
ghost use Rattle.hs_lines.specs.declared.told.Told.TheVariants as told;
ghost use Rattle.hs_turns.specs.Lines.{printed};
ghost use Rattle.hs_futures.specs.Futures.{ends};
ghost use Rattle.hs_lines.specs.Names.{IsKnown};
ghost use Rattle.hs_seams.specs.World.{World};
ghost use Rattle.hs_turns.specs.Machine.{Machine};
ghost use Rattle.hs_turns.specs.Turns.{closes_next};
ghost use Rattle.hs_scheduler.specs.Closing.{closes_in, first_closing};
ghost use Rattle.hs_scheduler.specs.Standing.{IsMachine};
ghost use Rattle.hs_scheduler.specs.Turned.{IsEnded, IsTurned, closed};

use crate::scheduler::Scheduler;
use hs_base::{NoMemory, SessionNo};
use hs_gathering::print;
use hs_lines::Told;
use hs_run::Gathered;
use hs_seams::Engine;

impl<E: Engine> Scheduler<E> {
    // Whether a session doesn't wait and isn't closed.
    fn is_to_close(&self, session: SessionNo) -> bool
        requires { IsSession session.0 }
        ensures { result ≡ closes_in self.now.seen self.now.closed session.0 }
    {
        !(self.seen.has(session) || self.closed.has(session))
    }

    // The first session that doesn't wait and isn't closed.
    fn next_to_close(&self) -> Option<SessionNo>
        ensures first { option_map (λ s. s.0) result ≡ first_closing self.now.seen self.now.closed self.now.names }
        ensures known { IfSome result (λ s. IsKnown self.now.names s.0) }
    {
        for s in 1..self.names.len() as u32 + 1 {
            if self.is_to_close(SessionNo(s)) {
                return Some(SessionNo(s));
            }
        }
        None
    }

    // Writes the line of a session's end, where its transaction is rolled back.
    fn write_end(&mut self, session: SessionNo, was_open: bool) -> Result<(), NoMemory>
        ensures text { OnOk result (self.new.text.items ≡ (if was_open then printed (lines_of self.old.names (told.EndOf session)) else [])) }
        ensures same { self.new ≡ record self.old { text = self.new.text } }
    {
        self.text.clear();
        if was_open {
            print(&Told::EndOf(session), &self.names, &mut self.text)?;
        }
        Ok(())
    }

    // Closes a session: its open transaction is rolled back.
    fn close_session(&mut self, session: SessionNo, gathered: &mut Gathered) -> Result<(), NoMemory>
        requires machine { (w : World) × (m : Machine) × IsMachine E.Engine self.old w m }
        requires known { IsKnown self.old.names session.0 }
        ensures turned { (w : World) (m : Machine) → IsMachine E.Engine self.old w m → OnOk result (IsTurned E.Engine w m (closed w session.0 m) self.new gathered.old gathered.new) }
        ensures err { OnErr result (gathered.new ≡ gathered.old) }
    {
        let was_open = self.engine.close(session, &self.names)?;
        self.write_end(session, was_open)?;
        gathered.told.push(&self.text)?;
        self.again = was_open | self.again;
        self.closed = self.closed.with(session);
        Ok(())
    }

    // Closes the first session that doesn't wait and isn't closed, and answers whether there was one.
    pub(crate) fn close_next(&mut self, gathered: &mut Gathered) -> Result<bool, NoMemory>
        requires machine { (w : World) × (m : Machine) × IsMachine E.Engine self.old w m }
        ensures turned { (w : World) (m : Machine) → IsMachine E.Engine self.old w m → IfOk result (λ more. more ≡ true → IsEnded E.Engine w m self.new gathered.old gathered.new) }
        ensures none { IfOk result (λ more. more ≡ false → ((w : World) (m : Machine) → IsMachine E.Engine self.old w m → closes_next m ≡ None) × ((self.new ≡ self.old) × (gathered.new ≡ gathered.old))) }
        ensures err { OnErr result (gathered.new ≡ gathered.old) }
    {
        let Some(session) = self.next_to_close() else {
            return Ok(false);
        };
        self.close_session(session, gathered)?;
        Ok(true)
    }
}
