// Sets of sessions.
ghost use Rattle.std.specs.Prelude.{◌≡◌, ◌==◌, ◌&&◌, ◌||◌, ◌≤◌, ◌↔◌, ℕ, not, false, IsTrue};
ghost use Rattle.hs_claims.specs.Blockers.{is_set, has, IsFirst};
ghost use Rattle.hs_claims.specs.Session.{IsSession};

use hs_base::SessionNo;

/// The sessions that hold up a statement, or any set of sessions: bit s - 1 stands for session s.
#[derive(Clone, Copy, Debug, PartialEq, Eq)]
pub struct Blockers(pub u64);

impl Blockers {
    /// No session.
    pub fn none() -> Blockers
        ensures { (s : ℕ) → has result s ≡ false }
    {
        Blockers(0)
    }

    /// Whether the set has a session.
    pub fn has(self, session: SessionNo) -> bool
        requires { IsSession session.0 }
        ensures { result ≡ has self session.0 }
    {
        (self.0 >> (session.0 - 1)) & 1 == 1
    }

    /// Whether no session is in it.
    pub fn is_empty(self) -> bool
        ensures { IsTrue result ↔ ((s : ℕ) → IsSession s → has self s ≡ false) }
    {
        is_none(self.0)
    }

    /// The set and one session more.
    pub fn with(self, session: SessionNo) -> Blockers
        requires { IsSession session.0 }
        ensures members { (s : ℕ) → IsSession s → has result s ≡ ((s == session.0) || has self s) }
        ensures greater { self.0 ≤ result.0 }
    {
        Blockers(self.0 | (1 << (session.0 - 1)))
    }

    /// The set but for one session.
    pub fn without(self, session: SessionNo) -> Blockers
        requires { IsSession session.0 }
        ensures { (s : ℕ) → IsSession s → has result s ≡ (not (s == session.0) && has self s) }
    {
        Blockers(self.0 & !(1 << (session.0 - 1)))
    }

    /// The sessions that are in both sets.
    pub fn common(self, other: Blockers) -> Blockers
        ensures { (s : ℕ) → has result s ≡ (has self s && has other s) }
    {
        Blockers(self.0 & other.0)
    }

    /// The first session of the set: None exactly where it is empty.
    pub fn first(self) -> Option<SessionNo>
        ensures { IsFirst self result }
    {
        first_in(self.0)
    }
}

fn is_none(bits: u64) -> bool
    ensures { IsTrue result ↔ ((s : ℕ) → IsSession s → is_set bits s ≡ false) }
{
    bits == 0
}

fn first_in(bits: u64) -> Option<SessionNo>
    ensures { IsFirst (record { 0 = bits }) result }
{
    if bits == 0 {
        return None;
    }
    Some(SessionNo(bits.trailing_zeros() + 1))
}
