//! What is read of inputs that are written as text, one case a line.
#![tactic(auto)]

mod answers;
mod asked;
mod items;
mod sources;

use hs_casetext::answer_all;
use items::Inputs;
use std::io;

fn main(rt: HostRuntime) -> io::Result<()> {
    answer_all(&rt, &mut Inputs { alloc: rt.alloc() })
}
