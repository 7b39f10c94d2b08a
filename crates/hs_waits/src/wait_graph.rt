// The recorded waits.
ghost use Rattle.std.specs.Prelude.{◌≡◌, ◌==◌, ◌&&◌, not, ℕ, false, None, if◌then◌else◌, length, slice_index};
ghost use Rattle.hs_claims.specs.Blockers.{has};
ghost use Rattle.hs_claims.specs.Session.{IsSession};
ghost use Rattle.hs_waits.specs.Waits.{waits_of, IsFirstLeading};

use crate::leading::leading_to;
use hs_base::SessionNo;
use hs_claims::Blockers;
use std::alloc::Global;
use std::marker::Model;

/// For each waiting session those for whom it waits. Waits never lead from one of them back to it. Contracts see a list
/// with a set of sessions for each session, and read it by `waits_of`.
#[derive(Drop)]
pub struct WaitGraph {
    // Whom session s waits for at s - 1.
    waits: [u64; 64],
}

impl Model for WaitGraph {
    ghost use Rattle.std.specs.Prelude.{ℕ, List};
    ghost use Rattle.std.specs.Coded.{coded_list, coded_ℕ};

    ghost Value = { List ℕ };

    ghost coded = { coded_list coded_ℕ };

    ghost use Rattle.hs_waits.specs.Waits.{HasNoCycle};

    ghost view = { λ g. g.waits };

    ghost invariant = { λ g. HasNoCycle g.waits };
}

impl WaitGraph {
    ghost use Rattle.hs_waits.specs.Waits.{HasNoCycle};

    /// Nobody waits. Takes no memory.
    pub fn new(_alloc: Global) -> WaitGraph
        ensures { (s b : ℕ) → has (waits_of result s) b ≡ false }
    {
        WaitGraph { waits: [0; 64] }
    }

    /// Those for whom a session waits: none where it doesn't wait.
    pub fn waits_of(&self, session: SessionNo) -> Blockers
        requires { IsSession session.0 }
        ensures those { result ≡ waits_of self.now session.0 }
        ensures no_cycle { HasNoCycle self.now }
    {
        Blockers(self.waits[session.0 as usize - 1])
    }

    /// The first of the blockers from which recorded waits lead back to the session, so that waiting for these blockers
    /// would close a cycle: None exactly where there is none. Takes no memory.
    pub fn closes_cycle(&self, session: SessionNo, blockers: Blockers) -> Option<SessionNo>
        requires session { IsSession session.0 }
        requires others { has blockers session.0 ≡ false }
        ensures { IsFirstLeading self.now session.0 blockers result }
    {
        blockers.common(leading_to(&self.waits, session)).first()
    }

    /// Records that a session waits for these blockers, in place of those for whom it waited. Takes no memory.
    pub fn wait(&mut self, session: SessionNo, blockers: Blockers)
        requires session { IsSession session.0 }
        requires others { has blockers session.0 ≡ false }
        requires no_cycle { IsFirstLeading self.old session.0 blockers None }
        ensures { (s : ℕ) → IsSession s → waits_of self.new s ≡ (if s == session.0 then blockers else waits_of self.old s) }
    {
        self.waits[session.0 as usize - 1] = blockers.0;
    }

    /// Records that a session waits for nobody. Takes no memory.
    pub fn answer(&mut self, session: SessionNo)
        requires { IsSession session.0 }
        ensures { (s b : ℕ) → IsSession s → has (waits_of self.new s) b ≡ (not (s == session.0) && has (waits_of self.old s) b) }
    {
        self.waits[session.0 as usize - 1] = 0;
    }

    /// Records that nobody waits for a session, whose transaction has ended. Takes no memory.
    pub fn ended(&mut self, session: SessionNo)
        requires { IsSession session.0 }
        ensures { (s b : ℕ) → IsSession s → IsSession b → has (waits_of self.new s) b ≡ (not (b == session.0) && has (waits_of self.old s) b) }
    {
        for i in 0..64_usize {
            self.waits[i] = Blockers(self.waits[i]).without(session).0;
        }
    }
}
