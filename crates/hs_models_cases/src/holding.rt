// What sessions hold, and whom it holds up, told by both bodies.
ghost use Rattle.hs_claims.specs.Session.{IsSession};

use crate::shown::{push_claims, sessions_text};
use crate::written::{claims_in, halves, session_in};
use hs_base::SessionNo;
use hs_casetext::{CaseFault, push_line};
use hs_claims::{ClaimTable, Claims};
use hs_claimtable::IndexedClaims;
use std::alloc::Global;

// The claims of some sessions in a table without marks and in one with them.
#[derive(Drop)]
struct Holding {
    plain: ClaimTable,
    indexed: IndexedClaims,
}

impl Holding {
    fn add(&mut self, session: SessionNo, claims: Claims) -> Result<(), CaseFault>
        requires { IsSession session.0 }
    {
        let Ok(copied) = claims.copy() else {
            return Err(CaseFault::NoMemory);
        };
        let plain = self.plain.add(session, copied);
        let indexed = self.indexed.add(session, claims);
        if plain.is_err() || indexed.is_err() {
            return Err(CaseFault::NoMemory);
        }
        Ok(())
    }

    fn release(&mut self, session: SessionNo)
        requires { IsSession session.0 }
    {
        self.plain.release(session);
        self.indexed.release(session);
    }

    // Adds who holds up claims of a session, as each body says it where they differ.
    fn push_blockers(
        &self,
        alloc: Global,
        session: SessionNo,
        wants: &Claims,
        to: &mut String,
    ) -> Result<(), CaseFault>
        requires { IsSession session.0 }
    {
        let plain = self.plain.blockers(session, wants);
        let indexed = self.indexed.blockers(session, wants);
        push_line(to, sessions_text(alloc, plain)?.as_str())?;
        if plain != indexed {
            push_line(to, "by the marks")?;
            push_line(to, sessions_text(alloc, indexed)?.as_str())?;
        }
        Ok(())
    }

    // Gives a session claims, or asks who holds them up.
    fn claim(
        &mut self,
        alloc: Global,
        word: &str,
        text: &str,
        to: &mut String,
    ) -> Result<(), CaseFault> {
        let (session, claims) = halves(text)?;
        let session = session_in(session)?;
        let claims = claims_in(alloc, claims)?;
        if word == "add" {
            return self.add(session, claims);
        }
        self.push_blockers(alloc, session, &claims, to)
    }

    fn step(&mut self, alloc: Global, text: &str, to: &mut String) -> Result<(), CaseFault> {
        let (word, behind) = halves(text)?;
        match word {
            "add" | "ask" => self.claim(alloc, word, behind, to),
            "end" => {
                self.release(session_in(behind)?);
                Ok(())
            }
            "held" => push_claims(to, "holds", self.indexed.held(session_in(behind)?)),
            _ => Err(CaseFault::Unreadable),
        }
    }
}

/// Steps with `; ` between them: `add` and `ask` with a session and claims, `held` and `end` with a session.
pub fn answer(alloc: Global, text: &str, to: &mut String) -> Result<(), CaseFault> {
    let mut holding = Holding {
        plain: ClaimTable::new(alloc),
        indexed: IndexedClaims::new(alloc),
    };
    for step in text.split("; ") {
        holding.step(alloc, step, to)?;
    }
    Ok(())
}
