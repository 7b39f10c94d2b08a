// The claims of open transactions, and who holds one on a resource.
ghost use Rattle.std.specs.Prelude.{◌≡◌, ◌==◌, ◌++◌, ℕ, [], OnOk, OnErr, if◌then◌else◌};
ghost use Rattle.hs_claims.specs.Blockers.{has};
ghost use Rattle.hs_claims.specs.Held.{held_by, blocks};
ghost use Rattle.hs_claims.specs.Session.{IsSession};

use crate::places::Places;
use hs_base::{NoMemory, SessionNo};
use hs_claims::{Blockers, ClaimTable, Claims};
use std::alloc::Global;
use std::marker::Model;

/// What the open transactions of the sessions hold, with marks that say for each resource who holds a claim on it.
/// Contracts see a list with the claims of each session, as those of `ClaimTable`, and read it by `held_by`.
#[derive(Drop)]
pub struct IndexedClaims {
    claims: ClaimTable,
    places: Places,
    // The marks may lack some after want of memory. They aren't used from then on.
    complete: bool,
}

impl Model for IndexedClaims {
    ghost use Rattle.std.specs.Prelude.{List};
    ghost use Rattle.hs_claims.specs.declared.claim.Claim.{Claim};
    ghost use Rattle.hs_claimtable.specs.Places.{IsIndexed};

    ghost Value = { List (List Claim) };

    ghost view = { λ t. t.claims };

    ghost invariant = { λ t. IsIndexed t.complete t.places t.claims };
}

impl IndexedClaims {
    /// No session holds a claim. Takes no memory.
    pub fn new(alloc: Global) -> IndexedClaims
        ensures { (s : ℕ) → held_by result s ≡ [] }
    {
        IndexedClaims {
            claims: ClaimTable::new(alloc),
            places: Places::new(alloc),
            complete: true,
        }
    }

    /// The claims that a session holds, in the order in which it got them. Takes no memory.
    pub fn held(&self, session: SessionNo) -> &Claims
        requires { IsSession session.0 }
        ensures { result.now ≡ held_by self.now session.0 }
    {
        self.claims.held(session)
    }

    /// Gives a session more claims. It takes one look-up for each of them. After an `Err`, which is want of memory, each
    /// session holds what it held, and `blockers` looks at every claim from then on.
    pub fn add(&mut self, session: SessionNo, claims: Claims) -> Result<(), NoMemory>
        requires { IsSession session.0 }
        ensures ok { OnOk result ((s : ℕ) → IsSession s → held_by self.new s ≡ (if s == session.0 then held_by self.old s ++ claims else held_by self.old s)) }
        ensures err { OnErr result ((s : ℕ) → IsSession s → held_by self.new s ≡ held_by self.old s) }
    {
        let complete = self.complete;
        self.complete = false;
        self.places.mark_all(session, claims.as_slice())?;
        self.claims.add(session, claims)?;
        self.complete = complete;
        Ok(())
    }

    /// Takes all its claims from a session. It takes one look-up for each of them, and no memory.
    pub fn release(&mut self, session: SessionNo)
        requires { IsSession session.0 }
        ensures { (s : ℕ) → IsSession s → held_by self.new s ≡ (if s == session.0 then [] else held_by self.old s) }
    {
        self.places
            .unmark_all(session, self.claims.held(session).as_slice());
        self.claims.release(session);
    }

    /// The other sessions that hold a claim which isn't compatible with one of these. It takes one look-up for each of
    /// them, however many claims are held, and no memory.
    pub fn blockers(&self, session: SessionNo, wants: &Claims) -> Blockers
        requires { IsSession session.0 }
        ensures { (s : ℕ) → IsSession s → has result s ≡ blocks self.now session.0 wants.now s }
    {
        if !self.complete {
            return self.claims.blockers(session, wants);
        }
        self.places.against(wants.as_slice()).without(session)
    }
}
