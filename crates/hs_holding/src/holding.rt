// All sessions.
ghost use Rattle.std.specs.Prelude.{◌≡◌, ◌-◌, ◌==◌, ◌∷◌, ◌++◌, [], ℕ, false, not, length, slice_set, is_some, if◌then◌else◌, IfOk, OnOk};
ghost use Rattle.hs_claims.specs.Blockers.{has};
ghost use Rattle.hs_claims.specs.Held.{blocks, held_by};
ghost use Rattle.hs_claims.specs.Session.{IsSession};
ghost use Rattle.hs_claims.specs.Wants.{catalog_claim};
ghost use Rattle.hs_sessions.specs.Settings.{controlled, ended, fresh};
ghost use Rattle.hs_holding.specs.Seats.{added, begun, own_in};
ghost use Rattle.hs_holding.specs.Held.{IsSeat, freed, graph, is_open_at, seat_of};

use crate::seat::{Own, Seat};
use hs_base::{CommitNo, NoMemory, SessionNo};
use hs_claims::{Blockers, Claims, ControlKind, catalog_claims};
use hs_claimtable::IndexedClaims;
use hs_plan::{Changes, Isolation};
use hs_sessions::{Control, ControlReply, Session};
use hs_waits::WaitGraph;
use std::alloc::Global;

/// The sessions in the order of their numbers, which begin with 1, what their transactions claim, and who waits for whom.
#[derive(Drop)]
pub struct Holding {
    pub seats: Vec<Seat>,
    pub claims: IndexedClaims,
    pub waits: WaitGraph,
}

impl Holding {
    /// No session. Takes no memory.
    pub fn new(alloc: Global) -> Holding
        ensures seats { result.seats.items ≡ [] }
        ensures claims { (s : ℕ) → held_by result.claims s ≡ [] }
        ensures waits { (a b : ℕ) → graph result a b ≡ false }
    {
        Holding {
            seats: Vec::new(alloc),
            claims: IndexedClaims::new(alloc),
            waits: WaitGraph::new(alloc),
        }
    }

    /// Adds a session of a level. An `Err` is want of memory.
    pub fn admit(&mut self, level: Isolation, alloc: Global) -> Result<(), NoMemory>
        ensures seats { OnOk result (self.new.seats.items ≡ self.old.seats.items ++ record { session = fresh level; auto = false } ∷ []) }
        ensures claims { self.new.claims ≡ self.old.claims }
        ensures waits { self.new.waits ≡ self.old.waits }
    {
        self.seats.push(Seat {
            session: Session::new(alloc, level),
            auto: false,
        })?;
        Ok(())
    }

    /// Whether a session has an open transaction.
    pub fn is_open(&self, session: SessionNo) -> bool
        requires { IsSeat self.now session.0 }
        ensures { result ≡ is_open_at self.now session.0 }
    {
        self.seats[session.0 as usize - 1].is_open()
    }

    /// Whether a session is in autocommit.
    pub fn is_autocommit(&self, session: SessionNo) -> bool
        requires { IsSeat self.now session.0 }
        ensures { result ≡ (seat_of self.now session.0).session.autocommit }
    {
        self.seats[session.0 as usize - 1].session.autocommit
    }

    /// What its open transaction is like under a model, or the one that a data statement would begin.
    pub fn own(&self, session: SessionNo, kind: ControlKind) -> Own
        requires { IsSeat self.now session.0 }
        ensures { result ≡ own_in kind (seat_of self.now session.0) }
    {
        self.seats[session.0 as usize - 1].own(kind)
    }

    /// The changes of its open transaction.
    pub fn changes(&self, session: SessionNo) -> &Changes
        requires { IsSeat self.now session.0 }
        ensures { result.now ≡ (seat_of self.now session.0).session.changes }
    {
        &self.seats[session.0 as usize - 1].session.changes
    }

    /// What its transaction claims, in memory of its own. An `Err` is want of memory.
    pub fn claims_of(&self, session: SessionNo) -> Result<Claims, NoMemory>
        requires { IsSession session.0 }
        ensures { IfOk result (λ claims. claims ≡ held_by self.now.claims session.0) }
    {
        self.claims.held(session).copy()
    }

    /// Begins a transaction, which claims the catalogue. An `Err` is want of memory.
    pub fn begin(
        &mut self,
        session: SessionNo,
        auto: bool,
        start: CommitNo,
        alloc: Global,
    ) -> Result<(), NoMemory>
        requires seat { IsSeat self.old session.0 }
        requires session { IsSession session.0 }
        ensures seats { OnOk result (self.new.seats.items ≡ slice_set self.old.seats.items (session.0 - 1) (begun auto start (seat_of self.old session.0))) }
        ensures claims { OnOk result ((b : ℕ) → IsSession b → held_by self.new.claims b ≡ (if b == session.0 then held_by self.old.claims b ++ catalog_claim false ∷ [] else held_by self.old.claims b)) }
        ensures waits { self.new.waits ≡ self.old.waits }
    {
        let catalog = catalog_claims(alloc, false)?;
        self.claims.add(session, catalog)?;
        let seat = &mut self.seats[session.0 as usize - 1];
        seat.begin(auto, start, alloc);
        Ok(())
    }

    /// Adds changes and claims to an open transaction. An `Err` is want of memory.
    pub fn add(
        &mut self,
        session: SessionNo,
        changes: Changes,
        claims: Claims,
        alloc: Global,
    ) -> Result<(), NoMemory>
        requires seat { IsSeat self.old session.0 }
        requires session { IsSession session.0 }
        ensures seats { OnOk result (self.new.seats.items ≡ slice_set self.old.seats.items (session.0 - 1) (added changes (seat_of self.old session.0))) }
        ensures claims { OnOk result ((b : ℕ) → IsSession b → held_by self.new.claims b ≡ (if b == session.0 then held_by self.old.claims b ++ claims else held_by self.old.claims b)) }
        ensures waits { self.new.waits ≡ self.old.waits }
    {
        self.claims.add(session, claims)?;
        let seat = &mut self.seats[session.0 as usize - 1];
        seat.add(changes, alloc)
    }

    /// Ends the transaction of a session, for which nobody waits any more. Takes no memory.
    pub fn end(&mut self, session: SessionNo, alloc: Global)
        requires seat { IsSeat self.old session.0 }
        requires session { IsSession session.0 }
        ensures seats { self.new.seats.items ≡ slice_set self.old.seats.items (session.0 - 1) (record (seat_of self.old session.0) { session = ended (seat_of self.old session.0).session }) }
        ensures claims { (b : ℕ) → IsSession b → held_by self.new.claims b ≡ (if b == session.0 then [] else held_by self.old.claims b) }
        ensures waits { (a b : ℕ) → IsSession a → IsSession b → graph self.new a b ≡ freed session.0 (graph self.old) a b }
    {
        self.claims.release(session);
        self.waits.ended(session);
        let seat = &mut self.seats[session.0 as usize - 1];
        seat.end(alloc);
    }

    /// Does a statement on settings or savepoints. An `Err` is want of memory.
    pub fn control(
        &mut self,
        session: SessionNo,
        control: &Control,
        alloc: Global,
    ) -> Result<ControlReply, NoMemory>
        requires { IsSeat self.old session.0 }
        ensures answer { IfOk result (λ reply. reply ≡ (controlled control.now (seat_of self.old session.0).session).0) }
        ensures seats { OnOk result (self.new.seats.items ≡ slice_set self.old.seats.items (session.0 - 1) (record (seat_of self.old session.0) { session = (controlled control.now (seat_of self.old session.0).session).1 })) }
        ensures claims { self.new.claims ≡ self.old.claims }
        ensures waits { self.new.waits ≡ self.old.waits }
    {
        let seat = &mut self.seats[session.0 as usize - 1];
        seat.control(control, alloc)
    }

    /// The other sessions that hold what doesn't go together with these. Takes no memory.
    pub fn blockers(&self, session: SessionNo, wanted: &Claims) -> Blockers
        requires { IsSession session.0 }
        ensures { (s : ℕ) → IsSession s → has result s ≡ blocks self.now.claims session.0 wanted.now s }
    {
        self.claims.blockers(session, wanted)
    }
}
