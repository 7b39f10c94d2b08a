// The claims of open transactions.
ghost use Rattle.std.specs.Prelude.{◌≡◌, ◌==◌, ◌++◌, ◌≤◌, ℕ, [], OnOk, OnErr, if◌then◌else◌, vec_len, slice_index_or};
ghost use Rattle.hs_claims.specs.Blockers.{has};
ghost use Rattle.hs_claims.specs.Held.{held_by, blocks};
ghost use Rattle.hs_claims.specs.Session.{IsSession};

use crate::blockers::Blockers;
use crate::claims::Claims;
use hs_base::{NoMemory, SessionNo};
use std::alloc::Global;
use std::marker::Model;

/// What the open transactions of the sessions hold. Contracts see a list with the claims of each session, and read it
/// by `held_by`.
#[derive(Drop)]
pub struct ClaimTable {
    // The claims of session s at s - 1.
    held: Vec<Claims>,
    // Those of every other session.
    none: Claims,
    alloc: Global,
}

impl Model for ClaimTable {
    ghost use Rattle.std.specs.Prelude.{◌≡◌, List, []};
    ghost use Rattle.hs_claims.specs.declared.claim.Claim.{Claim};

    ghost Value = { List (List Claim) };

    ghost view = { λ t. t.held.items };

    ghost invariant = { λ t. t.none ≡ [] };
}

impl ClaimTable {
    /// No session holds a claim. Takes no memory.
    pub fn new(alloc: Global) -> ClaimTable
        ensures { (s : ℕ) → held_by result s ≡ [] }
    {
        ClaimTable {
            held: Vec::new(alloc),
            none: Claims::new(alloc),
            alloc,
        }
    }

    /// The claims that a session holds, in the order in which it got them. Takes no memory.
    pub fn held(&self, session: SessionNo) -> &Claims
        requires { IsSession session.0 }
        ensures { result.now ≡ held_by self.now session.0 }
    {
        match self.held.get(session.0 as usize - 1) {
            Some(claims) => claims,
            None => &self.none,
        }
    }

    /// Gives a session more claims. After an `Err`, which is want of memory, each session holds what it held.
    pub fn add(&mut self, session: SessionNo, claims: Claims) -> Result<(), NoMemory>
        requires { IsSession session.0 }
        ensures ok { OnOk result ((s : ℕ) → IsSession s → held_by self.new s ≡ (if s == session.0 then held_by self.old s ++ claims else held_by self.old s)) }
        ensures err { OnErr result ((s : ℕ) → IsSession s → held_by self.new s ≡ held_by self.old s) }
    {
        let place = session.0 as usize - 1;
        lengthen(&mut self.held, place + 1, self.alloc)?;
        self.held[place].append(claims)?;
        Ok(())
    }

    /// Takes all its claims from a session. Takes no memory.
    pub fn release(&mut self, session: SessionNo)
        requires { IsSession session.0 }
        ensures { (s : ℕ) → IsSession s → held_by self.new s ≡ (if s == session.0 then [] else held_by self.old s) }
    {
        let place = session.0 as usize - 1;
        if place < self.held.len() {
            self.held[place] = Claims::new(self.alloc);
        }
    }

    /// The other sessions that hold a claim which isn't compatible with one of these. Takes no memory.
    pub fn blockers(&self, session: SessionNo, wants: &Claims) -> Blockers
        requires { IsSession session.0 }
        ensures { (s : ℕ) → IsSession s → has result s ≡ blocks self.now session.0 wants.now s }
    {
        let mut found = Blockers::none();
        for s in 1..65_u32 {
            let other = SessionNo(s);
            if other != session && !wants.fits(self.held(other)) {
                found = found.with(other);
            }
        }
        found
    }
}

// Makes the list at least so long, by sessions that hold nothing.
fn lengthen(held: &mut Vec<Claims>, len: usize, alloc: Global) -> Result<(), NoMemory>
    ensures long { OnOk result (len ≤ vec_len held.new) }
    ensures same { (k : ℕ) → slice_index_or held.new.items k [] ≡ slice_index_or held.old.items k [] }
{
    while held.len() < len {
        held.push(Claims::new(alloc))?;
    }
    Ok(())
}
