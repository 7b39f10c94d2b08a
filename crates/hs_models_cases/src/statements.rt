// What a statement wants and keeps, what it reads, and whether claims go together.
use crate::shown::push_claims;
use crate::written::{claim_in, claims_in, footprint_in, halves, level_in, read_only_in};
use hs_casetext::{CaseFault, push_line};
use hs_claims::{Claims, Footprint, Level, TxModel, compatible};
use hs_locks::Locks;
use hs_mvcc::Mvcc;
use hs_mvlocks::MvLocks;
use std::alloc::Global;

// A statement, as a case writes it: its transaction's level and access, and its footprint.
#[derive(Drop)]
struct Statement {
    level: Level,
    read_only: bool,
    footprint: Footprint,
}

fn statement_in(alloc: Global, text: &str) -> Result<Statement, CaseFault> {
    let (level, behind) = halves(text)?;
    let (access, footprint) = halves(behind)?;
    Ok(Statement {
        level: level_in(level)?,
        read_only: read_only_in(access)?,
        footprint: footprint_in(alloc, footprint)?,
    })
}

fn wants<M: TxModel>(alloc: Global, text: &str) -> Result<Claims, CaseFault> {
    let one = statement_in(alloc, text)?;
    match M::wants(alloc, one.level, one.read_only, &one.footprint) {
        Ok(claims) => Ok(claims),
        Err(_) => Err(CaseFault::NoMemory),
    }
}

fn keeps<M: TxModel>(alloc: Global, text: &str) -> Result<Claims, CaseFault> {
    let one = statement_in(alloc, text)?;
    match M::keeps(alloc, one.level, one.read_only, &one.footprint) {
        Ok(claims) => Ok(claims),
        Err(_) => Err(CaseFault::NoMemory),
    }
}

fn state_read<M: TxModel>(alloc: Global, text: &str) -> Result<&'static str, CaseFault> {
    let one = statement_in(alloc, text)?;
    if M::reads_start(one.level, one.read_only) {
        Ok("reads the state at its start")
    } else {
        Ok("reads the present state")
    }
}

fn push_answers<M: TxModel>(alloc: Global, text: &str, to: &mut String) -> Result<(), CaseFault> {
    push_claims(to, "wants", &wants::<M>(alloc, text)?)?;
    push_claims(to, "keeps", &keeps::<M>(alloc, text)?)?;
    Ok(push_line(to, state_read::<M>(alloc, text)?)?)
}

/// The claims that a statement wants and those that it keeps, and the state that it reads.
pub fn answer(alloc: Global, model: &str, text: &str, to: &mut String) -> Result<(), CaseFault> {
    match model {
        "locks" => push_answers::<Locks>(alloc, text, to),
        "mvlocks" => push_answers::<MvLocks>(alloc, text, to),
        _ => push_answers::<Mvcc>(alloc, text, to),
    }
}

// Adds whether the second of two statements goes on beside what the first one keeps.
fn push_second<M: TxModel>(alloc: Global, both: &str, to: &mut String) -> Result<(), CaseFault> {
    let (first, second) = both.split_once(" | ").ok_or(CaseFault::Unreadable)?;
    let kept = keeps::<M>(alloc, first)?;
    let goes = wants::<M>(alloc, second)?.fits(&kept);
    Ok(push_line(to, if goes { "goes on" } else { "waits" })?)
}

/// Whether a statement goes on while the transaction of another one is open: its model, one statement, `|` and the
/// other one, of which the second is to go on.
pub fn after(alloc: Global, text: &str, to: &mut String) -> Result<(), CaseFault> {
    let (model, both) = halves(text)?;
    match model {
        "locks" => push_second::<Locks>(alloc, both, to),
        "mvlocks" => push_second::<MvLocks>(alloc, both, to),
        "mvcc" => push_second::<Mvcc>(alloc, both, to),
        _ => Err(CaseFault::Unreadable),
    }
}

/// Whether two claims go together, or two lists of them, `|` being between the lists.
pub fn together(alloc: Global, text: &str, to: &mut String) -> Result<(), CaseFault> {
    let fit = match text.split_once(" | ") {
        Some((wanted, held)) => claims_in(alloc, wanted)?.fits(&claims_in(alloc, held)?),
        None => {
            let (one, other) = halves(text)?;
            compatible(&claim_in(alloc, one)?, &claim_in(alloc, other)?)
        }
    };
    Ok(push_line(to, if fit { "yes" } else { "no" })?)
}
