// A program's cases and their answers.
use crate::fault::CaseFault;
use crate::lines::push_line;
use std::alloc::{AllocError, Global};
use std::io;

/// What answers the cases of a program.
pub trait Cases {
    /// Adds what a case comes to, as lines that begin with two spaces.
    ///
    /// `Unreadable`: it is no case of this program.
    fn answer(&mut self, kind: &str, text: &str, to: &mut String) -> Result<(), CaseFault>;
}

// What a line comes to. Its first word is the case's kind, and its text stands behind a space.
fn answer_to<C: Cases>(alloc: Global, line: &str, cases: &mut C) -> Result<String, AllocError> {
    let mut answer = String::new(alloc);
    if line.is_empty() || line.starts_with('#') {
        return Ok(answer);
    }
    let (kind, text) = line.split_once(' ').unwrap_or((line, ""));
    match cases.answer(kind, text, &mut answer) {
        Ok(()) => Ok(answer),
        Err(CaseFault::NoMemory) => Err(AllocError),
        Err(CaseFault::Unreadable) => {
            push_line(&mut answer, "can't be read")?;
            Ok(answer)
        }
    }
}

/// Prints each line of standard input, and behind it what it comes to. A line is a case, but one that is empty or begins with
/// `#`. Of a line that can't be read it prints that.
pub fn answer_all<R: Input + Print + AllocGlobal, C: Cases>(
    rt: &R,
    cases: &mut C,
) -> io::Result<()> {
    for line in rt.lines(rt.alloc()) {
        let line = line?;
        let answer = answer_to(rt.alloc(), line.as_str(), cases)?;
        print!(rt; "{line}\n{answer}")?;
    }
    Ok(())
}
