//! What runs print and log over inputs and logs that are written as text, one case a line.
#![tactic(auto)]

mod damage;
mod desk;
mod log;
mod runs;

use desk::Desk;
use hs_casetext::answer_all;
use std::io;

fn main(rt: HostRuntime) -> io::Result<()> {
    answer_all(&rt, &mut Desk::new(rt.alloc()))
}
