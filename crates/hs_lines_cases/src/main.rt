//! The texts of changes as a log has them, read and printed again, one case a line.
#![tactic(auto)]

mod desk;
mod kinds;

use desk::Desk;
use hs_casetext::answer_all;
use std::io;

fn main(rt: HostRuntime) -> io::Result<()> {
    answer_all(&rt, &mut Desk::new(rt.alloc()))
}
