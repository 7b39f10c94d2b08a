//! Values that are read, printed, reckoned, compared and stored, one case a line.
#![tactic(auto)]

mod comparing;
mod dates;
mod decimals;
mod storing;
mod texts;
mod written;

use hs_casetext::{CaseFault, Cases, answer_all, text_of};
use std::alloc::Global;
use std::io;

/// What answers the cases.
#[derive(Drop)]
struct Values {
    alloc: Global,
}

impl Cases for Values {
    fn answer(&mut self, kind: &str, text: &str, to: &mut String) -> Result<(), CaseFault> {
        let written = text_of(self.alloc, text)?;
        let text = written.as_str();
        match kind {
            "add" | "subtract" | "multiply" | "divide" => decimals::reckon(kind, text, to),
            "rescale" => decimals::rescale_one(text, to),
            "read" => decimals::read_one(text, to),
            "print" => decimals::print_one(self.alloc, text, to),
            "printed" => decimals::read_printed_one(text, to),
            "date" | "stamp" => dates::read_one(kind, text, to),
            "days" | "months" => dates::move_one(kind, text, to),
            "print-date" => dates::print_day(self.alloc, text, to),
            "print-stamp" => dates::print_moment(self.alloc, text, to),
            "year" | "month" | "day" | "hour" | "minute" | "second" => {
                dates::extract_one(kind, text, to)
            }
            "compare" => comparing::compare(self.alloc, text, to),
            "key" => comparing::key(text, to),
            "store" => storing::store(self.alloc, text, to),
            "like" | "substring" | "trim" | "letters" | "join" => {
                texts::answer(self.alloc, kind, text, to)
            }
            _ => Err(CaseFault::Unreadable),
        }
    }
}

fn main(rt: HostRuntime) -> io::Result<()> {
    answer_all(&rt, &mut Values { alloc: rt.alloc() })
}
