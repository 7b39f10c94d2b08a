// What takes turns with an engine.
ghost use Rattle.std.specs.Prelude.{[]};
ghost use Rattle.hs_seams.specs.World.{World};
ghost use Rattle.hs_sides.specs.Sides.{side_of};
ghost use Rattle.hs_turns.specs.Machine.{start};
ghost use Rattle.hs_scheduler.specs.Standing.{IsMachine};

use hs_claims::Blockers;
use hs_lines::Names;
use hs_log::Batch;
use hs_queue::{Backlogs, Entry, Waiters};
use hs_seams::Engine;
use std::alloc::Global;
use std::collections::VecDeque;

/// An engine with the sessions' names, the entries that wait and are queued, and what its turns are gathered in.
#[derive(Drop)]
pub struct Scheduler<E> {
    pub engine: E,
    /// The names of the sessions, in the order of their numbers.
    pub names: Names,
    /// The waiters that the present pass over them has seen.
    pub seen: Waiters,
    /// Those that it hasn't, in their order.
    pub pass: VecDeque<Entry>,
    /// Whether something ended or was answered since the pass began.
    pub again: bool,
    /// Entries of sessions that wait.
    pub queue: Backlogs,
    /// The sessions that are closed.
    pub closed: Blockers,
    // The lines that the present turn tells.
    pub text: Vec<u8>,
    // The texts of the commits that it makes.
    pub made: Batch,
    pub alloc: Global,
}

impl<E: Engine> Scheduler<E> {
    /// No session yet. Takes no memory.
    pub fn new(engine: E, alloc: Global) -> Scheduler<E>
        ensures { (w : World) → E.stands engine w (side_of (start w.run.opening [])) → IsMachine E.Engine result w (start w.run.opening []) }
    {
        Scheduler {
            engine,
            names: Names::new(alloc),
            seen: Waiters::new(alloc),
            pass: VecDeque::new(alloc),
            again: false,
            queue: Backlogs::new(alloc),
            closed: Blockers::none(),
            text: Vec::new(alloc),
            made: Batch::new(alloc),
            alloc,
        }
    }
}
