// Who waits for whom.
ghost use Rattle.std.specs.Prelude.{◌≡◌, ◌≤◌, ◌==◌, ◌&&◌, ◌||◌, ℕ, None, length};
ghost use Rattle.hs_claims.specs.Blockers.{has};
ghost use Rattle.hs_claims.specs.Session.{IsSession};
ghost use Rattle.hs_waits.specs.Waits.{IsFirstLeading};
ghost use Rattle.hs_holding.specs.Held.{IsSeat, answered, graph, is_open_at, waits_by};

use crate::holding::Holding;
use hs_base::SessionNo;
use hs_claims::Blockers;

impl Holding {
    /// The sessions with an open transaction. Takes no memory.
    pub fn open_sessions(&self) -> Blockers
        requires { length self.now.seats.items ≤ 64 }
        ensures { (s : ℕ) → IsSession s → has result s ≡ is_open_at self.now s }
    {
        let mut found = Blockers::none();
        for s in 1..self.seats.len() as u32 + 1 {
            found = self.with_open(SessionNo(s), found);
        }
        found
    }

    // A set, with a session that has an open transaction.
    fn with_open(&self, session: SessionNo, found: Blockers) -> Blockers
        requires seat { IsSeat self.now session.0 }
        requires session { IsSession session.0 }
        ensures { (b : ℕ) → IsSession b → has result b ≡ (((b == session.0) && is_open_at self.now b) || has found b) }
    {
        if self.is_open(session) {
            return found.with(session);
        }
        found
    }

    /// The first of the blockers from whom waits lead back to a session, itself among them. Takes no memory.
    pub fn leading_back(&self, session: SessionNo, blockers: Blockers) -> Option<SessionNo>
        requires { IsSession session.0 }
        ensures { IsFirstLeading self.now.waits session.0 blockers result }
    {
        let first = self.waits.closes_cycle(session, blockers.without(session));
        if !blockers.has(session) {
            return first;
        }
        match first {
            Some(other) if other.0 < session.0 => Some(other),
            _ => Some(session),
        }
    }

    /// A session waits for these, from none of whom waits lead back to it. Takes no memory.
    pub fn wait(&mut self, session: SessionNo, blockers: Blockers)
        requires session { IsSession session.0 }
        requires clear { IsFirstLeading self.old.waits session.0 blockers None }
        ensures waits { (a b : ℕ) → IsSession a → IsSession b → graph self.new a b ≡ waits_by session.0 blockers (graph self.old) a b }
        ensures seats { self.new.seats ≡ self.old.seats }
        ensures claims { self.new.claims ≡ self.old.claims }
    {
        self.waits.wait(session, blockers);
    }

    /// A session waits for nobody. Takes no memory.
    pub fn answer(&mut self, session: SessionNo)
        requires { IsSession session.0 }
        ensures waits { (a b : ℕ) → IsSession a → IsSession b → graph self.new a b ≡ answered session.0 (graph self.old) a b }
        ensures seats { self.new.seats ≡ self.old.seats }
        ensures claims { self.new.claims ≡ self.old.claims }
    {
        self.waits.answer(session);
    }
}
