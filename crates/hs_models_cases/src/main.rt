//! What statements want and keep under the three models of transactions, and who holds up and waits for whom, one case
//! a line.
#![tactic(auto)]

mod holding;
mod shown;
mod statements;
mod waiting;
mod written;

use hs_casetext::{CaseFault, Cases, answer_all, text_of};
use std::alloc::Global;
use std::io;

/// What answers the cases.
#[derive(Drop)]
struct Models {
    alloc: Global,
}

impl Cases for Models {
    fn answer(&mut self, kind: &str, text: &str, to: &mut String) -> Result<(), CaseFault> {
        let written = text_of(self.alloc, text)?;
        let text = written.as_str();
        match kind {
            "together" => statements::together(self.alloc, text, to),
            "locks" | "mvlocks" | "mvcc" => statements::answer(self.alloc, kind, text, to),
            "after" => statements::after(self.alloc, text, to),
            "claims" => holding::answer(self.alloc, text, to),
            "waits" => waiting::answer(self.alloc, text, to),
            _ => Err(CaseFault::Unreadable),
        }
    }
}

fn main(rt: HostRuntime) -> io::Result<()> {
    answer_all(&rt, &mut Models { alloc: rt.alloc() })
}
