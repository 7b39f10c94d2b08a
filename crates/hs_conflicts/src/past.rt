// The claims of the commits behind so many.
ghost use Rattle.std.specs.Prelude.{◌≡◌, ◌≤◌, ◌+◌, ◌-◌, ◌^◌, ◌∷◌, ◌++◌, [], drop, length, OnOk, OnErr};
ghost use Rattle.hs_conflicts.specs.Conflicts.{conflict_from};

use hs_base::NoMemory;
use hs_claims::Claims;
use std::alloc::Global;

/// The claims of the commits behind so many, the oldest first.
#[derive(Drop)]
pub struct Past {
    pub first: u64,
    pub claims: Vec<Claims>,
}

impl Past {
    /// No commits, behind none. Takes no memory.
    pub fn new(alloc: Global) -> Past
        ensures first { result.first ≡ 0 }
        ensures claims { result.claims.items ≡ [] }
    {
        Past {
            first: 0,
            claims: Vec::new(alloc),
        }
    }

    /// The number of the first commit behind a start whose claims don't go together with what is wanted. Takes no memory.
    pub fn conflict(&self, start: u64, wanted: &Claims) -> Option<u64>
        requires first { self.now.first ≤ start }
        requires few { self.now.first + length self.now.claims.items ≤ 2 ^ 48 }
        ensures { result ≡ conflict_from wanted.now start (drop (start - self.now.first) self.now.claims.items) }
    {
        let skipped = (start - self.first) as usize;
        if skipped >= self.claims.len() {
            return None;
        }
        conflict_in(start, &self.claims[skipped..], wanted)
    }

    /// Adds the claims of the next commit. After an `Err`, which is want of memory, nothing is changed.
    pub fn push(&mut self, claims: Claims) -> Result<(), NoMemory>
        ensures first { self.new.first ≡ self.old.first }
        ensures ok { OnOk result (self.new.claims.items ≡ self.old.claims.items ++ claims ∷ []) }
        ensures err { OnErr result (self.new.claims.items ≡ self.old.claims.items) }
    {
        self.claims.push(claims)?;
        Ok(())
    }

    /// Drops the claims of all commits, of which there are so many.
    pub fn forget(&mut self, commits: u64)
        ensures first { self.new.first ≡ commits }
        ensures claims { self.new.claims.items ≡ [] }
    {
        self.first = commits;
        self.claims.clear();
    }

    /// Drops the claims of the commits up to the one with this number.
    pub fn drop_before(&mut self, least: u64)
        requires first { self.old.first ≤ least }
        requires last { least ≤ self.old.first + length self.old.claims.items }
        ensures first { self.new.first ≡ least }
        ensures claims { self.new.claims.items ≡ drop (least - self.old.first) self.old.claims.items }
    {
        let dropped = (least - self.first) as usize;
        if dropped > 0 {
            self.claims.drain(..dropped);
            self.first = least;
        }
    }
}

// The same among all of these, the first of which comes behind so many.
fn conflict_in(start: u64, claims: &[Claims], wanted: &Claims) -> Option<u64>
    requires { start + length claims.now ≤ 2 ^ 48 }
    ensures { result ≡ conflict_from wanted.now start claims.now }
{
    let mut number = start;
    for held in claims {
        number += 1;
        if !wanted.fits(held) {
            return Some(number);
        }
    }
    None
}
