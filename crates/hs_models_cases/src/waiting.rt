// Who waits for whom.
ghost use Rattle.std.specs.Prelude.{◌≡◌, false};
ghost use Rattle.hs_claims.specs.Blockers.{has};
ghost use Rattle.hs_claims.specs.Session.{IsSession};

use crate::shown::sessions_text;
use crate::written::session_in;
use hs_base::SessionNo;
use hs_casetext::{CaseFault, push_line};
use hs_claims::Blockers;
use hs_waits::WaitGraph;
use std::alloc::Global;

// The sessions behind the first one.
fn others_in(text: &str) -> Result<Blockers, CaseFault> {
    let mut others = Blockers::none();
    for session in text.split(' ') {
        others = others.with(session_in(session)?);
    }
    Ok(others)
}

// Lets a session wait for these, or names the one that would close a cycle.
fn wait(
    alloc: Global,
    graph: &mut WaitGraph,
    session: SessionNo,
    blockers: Blockers,
    to: &mut String,
) -> Result<(), CaseFault>
    requires session { IsSession session.0 }
    requires others { has blockers session.0 ≡ false }
{
    match graph.closes_cycle(session, blockers) {
        Some(first) => {
            let first = first.0;
            let line = format!(in alloc; "deadlock with {first}")?;
            Ok(push_line(to, line.as_str())?)
        }
        None => {
            graph.wait(session, blockers);
            let names = sessions_text(alloc, blockers)?;
            let line = format!(in alloc; "waits for {names}")?;
            Ok(push_line(to, line.as_str())?)
        }
    }
}

fn step(
    alloc: Global,
    graph: &mut WaitGraph,
    text: &str,
    to: &mut String,
) -> Result<(), CaseFault> {
    let (session, behind) = text.split_once(' ').ok_or(CaseFault::Unreadable)?;
    let session = session_in(session)?;
    match behind {
        "answered" => graph.answer(session),
        "ended" => graph.ended(session),
        "shown" => {
            let names = sessions_text(alloc, graph.waits_of(session))?;
            push_line(to, names.as_str())?;
        }
        _ => {
            let blockers = others_in(behind)?;
            if blockers.has(session) {
                return Err(CaseFault::Unreadable);
            }
            wait(alloc, graph, session, blockers, to)?;
        }
    }
    Ok(())
}

/// Steps with `; ` between them: a session, and behind it those for whom it waits, `answered`, `ended` or `shown`.
pub fn answer(alloc: Global, text: &str, to: &mut String) -> Result<(), CaseFault> {
    let mut graph = WaitGraph::new(alloc);
    for one in text.split("; ") {
        step(alloc, &mut graph, one, to)?;
    }
    Ok(())
}
