// What turns gather.

use crate::output::Output;
use hs_log::Batch;
use std::alloc::Global;

/// What turns gather: what is to be told, and the texts of the commits that are to stand in the log before.
#[derive(Drop)]
pub struct Gathered {
    /// What is to be told, whole lines.
    pub told: Output,
    /// The texts of commits that aren't logged yet, the oldest first.
    pub made: Batch,
    /// The session of the last commit that was made. It is of no account where none was.
    pub session: u32,
}

impl Gathered {
    ghost use Rattle.std.specs.Prelude.{◌≡◌, []};

    /// Nothing gathered. Takes no memory.
    pub fn new(alloc: Global) -> Gathered
        ensures told { result.told ≡ [] }
        ensures made { result.made ≡ [] }
    {
        Gathered {
            told: Output::new(alloc),
            made: Batch::new(alloc),
            session: 0,
        }
    }
}
