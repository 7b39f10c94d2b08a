// From which states the sessions read.
ghost use Rattle.std.specs.Prelude.{◌≡◌, ◌≤◌, ◌-◌, ◌==◌, length};
ghost use Rattle.std.specs.List.{list_any};
ghost use Rattle.hs_holding.specs.Held.{IsSeat, seat_of};
ghost use Rattle.hs_holding.specs.Seats as spec;
ghost use Rattle.hs_holding.specs.Starts.{IsLeastAmong, IsLeastStart, IsReadFrom};

use crate::holding::Holding;
use hs_base::{CommitNo, SessionNo};
use hs_claims::ControlKind;

impl Holding {
    /// How many commits there were at the beginning of a session's open transaction. None where it has none.
    pub fn start(&self, session: SessionNo) -> Option<CommitNo>
        requires { IsSeat self.now session.0 }
        ensures { result ≡ spec.start_in (seat_of self.now session.0) }
    {
        self.seats[session.0 as usize - 1].start()
    }

    /// Whether an open transaction of another session reads the state behind so many commits. Takes no memory.
    pub fn is_read_from(&self, kind: ControlKind, start: CommitNo, but: SessionNo) -> bool
        requires { length self.now.seats.items ≤ 64 }
        ensures { IsReadFrom kind start.0 but.0 self.now result }
    {
        for s in 1..self.seats.len() as u32 + 1 {
            if s != but.0 && self.seats[s as usize - 1].reads_from(kind, start) {
                return true;
            }
        }
        false
    }

    /// Whether any open transaction reads the state behind so many commits. Takes no memory.
    pub fn uses(&self, kind: ControlKind, start: CommitNo) -> bool
        ensures { result ≡ list_any (spec.reads_from kind start.0) self.now.seats.items }
    {
        self.seats.iter().any(|seat| seat.reads_from(kind, start))
    }

    /// The least start of the open transactions of other sessions that may conflict with commits. None where there is
    /// none. Takes no memory.
    pub fn least_start(&self, kind: ControlKind, but: SessionNo) -> Option<CommitNo>
        requires { length self.now.seats.items ≤ 64 }
        ensures { IsLeastStart kind but.0 self.now result }
    {
        let mut least = None;
        for s in 1..self.seats.len() as u32 + 1 {
            least = self.lesser_start(kind, but, SessionNo(s), least);
        }
        least
    }

    // The least start of the sessions up to this one, by that of those before it.
    fn lesser_start(
        &self,
        kind: ControlKind,
        but: SessionNo,
        session: SessionNo,
        least: Option<CommitNo>,
    ) -> Option<CommitNo>
        requires { IsSeat self.now session.0 }
        ensures { IsLeastAmong kind but.0 (session.0 - 1) self.now least → IsLeastAmong kind but.0 session.0 self.now result }
    {
        if session == but || !self.seats[session.0 as usize - 1].may_conflict(kind) {
            return least;
        }
        let Some(start) = self.start(session) else {
            return least;
        };
        match least {
            Some(other) if other.0 <= start.0 => Some(other),
            _ => Some(start),
        }
    }
}
