// Lists of claims.
ghost use Rattle.std.specs.Prelude.{◌≡◌, ◌∷◌, ◌++◌, [], ◌↔◌, IsTrue, length, IfOk, OnOk, OnErr};
ghost use Rattle.hs_claims.specs.Compatible.{fits, fits_one};
ghost use Rattle.hs_claims.specs.Wants.{catalog_claim};

use crate::claim::{Claim, compatible};
use crate::resource::Resource;
use hs_base::NoMemory;
use std::alloc::Global;
use std::marker::Model;

/// Claims of a statement or of a transaction. Contracts see the list.
#[derive(Debug, Drop)]
pub struct Claims {
    claims: Vec<Claim>,
}

impl Model for Claims {
    ghost use Rattle.std.specs.Prelude.{List};
    ghost use Rattle.hs_claims.specs.declared.claim.Claim.{Claim};

    ghost Value = { List Claim };

    ghost view = { λ l. l.claims.items };
}

impl Claims {
    /// The empty list. Takes no memory.
    pub fn new(alloc: Global) -> Claims
        ensures { result ≡ [] }
    {
        Claims {
            claims: Vec::new(alloc),
        }
    }

    /// The list of a vector, without taking memory.
    pub fn from_vec(claims: Vec<Claim>) -> Claims
        ensures { result ≡ claims.items }
    {
        Claims { claims }
    }

    /// The vector of this list, without taking memory.
    pub fn into_vec(self) -> Vec<Claim>
        ensures { result.items ≡ self }
    {
        self.claims
    }

    pub fn as_slice(&self) -> &[Claim]
        ensures { result.now ≡ self.now }
    {
        &self.claims
    }

    pub fn len(&self) -> usize
        ensures { result ≡ length self.now }
    {
        self.claims.len()
    }

    pub fn is_empty(&self) -> bool
        ensures { IsTrue result ↔ (self.now ≡ []) }
    {
        self.claims.is_empty()
    }

    /// Adds one at the end. After an `Err`, which is want of memory, nothing is changed.
    pub fn push(&mut self, claim: Claim) -> Result<(), NoMemory>
        ensures ok { OnOk result (self.new ≡ self.old ++ claim ∷ []) }
        ensures err { OnErr result (self.new ≡ self.old) }
    {
        self.claims.push(claim)?;
        Ok(())
    }

    /// Adds these at the end, in their order. After an `Err`, which is want of memory, nothing is changed.
    pub fn append(&mut self, more: Claims) -> Result<(), NoMemory>
        ensures ok { OnOk result (self.new ≡ self.old ++ more) }
        ensures err { OnErr result (self.new ≡ self.old) }
    {
        let mut others = more.into_vec();
        self.claims.append(&mut others)?;
        Ok(())
    }

    /// The same list in memory of its own. An `Err` is want of memory, and what was copied by then is given back.
    pub fn copy(&self) -> Result<Claims, NoMemory>
        ensures { IfOk result (λ copied. copied ≡ self.now) }
    {
        let mut claims = Vec::with_capacity(*self.claims.allocator(), self.claims.len())?;
        for claim in &self.claims {
            claims.push(claim.copy()?)?;
        }
        Ok(Claims { claims })
    }

    /// Whether each of these, which someone wants, goes together with each of those that another one holds. Takes no
    /// memory.
    pub fn fits(&self, held: &Claims) -> bool
        ensures { result ≡ fits self.now held.now }
    {
        held.as_slice().iter().all(|one| self.fit(one))
    }

    // Whether each of these goes together with that one.
    fn fit(&self, held: &Claim) -> bool
        ensures { result ≡ fits_one self.now held.now }
    {
        self.claims.iter().all(|want| compatible(want, held))
    }
}

/// The one claim on the catalogue: shared, as an open transaction has it from its beginning on, or exclusive, as a
/// definition, CHECKPOINT and SHUTDOWN want it, which keep nothing. An `Err` is want of memory.
pub fn catalog_claims(alloc: Global, exclusive: bool) -> Result<Claims, NoMemory>
    ensures { IfOk result (λ claims. claims ≡ catalog_claim exclusive ∷ []) }
{
    let mut claims = Claims::new(alloc);
    claims.push(Claim {
        resource: Resource::Catalog,
        exclusive,
    })?;
    Ok(claims)
}
