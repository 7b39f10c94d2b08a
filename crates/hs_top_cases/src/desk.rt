// The cases, one at a time, over a log that stays from one to the next.
use crate::damage::{letters_of_changed, letters_of_cut};
use crate::log::with_group;
use crate::runs::{Ended, run_over, shown, words_in};
use hs_casetext::{CaseFault, Cases, bytes_of, number_in, push_line, push_lines};
use hs_top::Status;
use std::alloc::{AllocError, Global};

// More bytes than any input has.
const WHOLE: usize = 1_000_000;

/// The log of a database that no other run is over.
#[derive(Drop)]
pub struct Desk {
    alloc: Global,
    log: Vec<u8>,
}

impl Desk {
    pub fn new(alloc: Global) -> Desk {
        Desk {
            alloc,
            log: Vec::new(alloc),
        }
    }

    fn run(&self, input: &[u8], piece: usize, log: &[u8]) -> Result<Ended, AllocError> {
        let words = words_in(self.alloc, "hsql,demo")?;
        run_over(self.alloc, &words, input, piece, log)
    }

    // Runs over an empty log, the input being given whole, and in pieces of one and of seven bytes.
    fn run_in_pieces(&self, input: &[u8], to: &mut String) -> Result<(), AllocError> {
        let whole = self.run(input, WHOLE, b"")?;
        self.push_ended(to, &whole)?;
        for piece in [1, 7] {
            let run = self.run(input, piece, b"")?;
            if run.status != whole.status || run.output.as_slice() != whole.output.as_slice() {
                push_line(
                    to,
                    format!(in self.alloc; "in pieces of {piece}:")?.as_str(),
                )?;
                self.push_ended(to, &run)?;
            }
        }
        Ok(())
    }

    // Runs over the log, which is then the one that was left.
    fn run_on(&mut self, input: &[u8], to: &mut String) -> Result<(), AllocError> {
        let run = self.run(input, WHOLE, self.log.as_slice())?;
        self.push_ended(to, &run)?;
        self.log = run.log;
        Ok(())
    }

    // How a run opens a log that has one group more.
    fn open_with(&self, text: &[u8], to: &mut String) -> Result<(), AllocError> {
        let log = with_group(self.alloc, self.log.as_slice(), text)?;
        let run = self.run(b"", WHOLE, log.as_slice())?;
        push_line(to, shown(self.alloc, &run.status)?.as_str())
    }

    // How the run of a command line ends over an empty input and no log.
    fn run_words(&self, text: &str, to: &mut String) -> Result<(), AllocError> {
        let words = words_in(self.alloc, text)?;
        let run = run_over(self.alloc, &words, b"", WHOLE, b"")?;
        push_line(to, shown(self.alloc, &run.status)?.as_str())
    }

    fn push_ended(&self, to: &mut String, run: &Ended) -> Result<(), AllocError> {
        push_lines(to, run.output.as_slice())?;
        if run.status == Status::Done {
            return Ok(());
        }
        push_line(to, shown(self.alloc, &run.status)?.as_str())
    }

    // The letters of the log with one byte changed, or of its beginnings.
    fn push_letters(&self, value: Option<u8>, to: &mut String) -> Result<(), AllocError> {
        let words = words_in(self.alloc, "hsql,demo")?;
        let letters = match value {
            Some(value) => letters_of_changed(self.alloc, &words, &self.log, value)?,
            None => letters_of_cut(self.alloc, &words, self.log.as_slice())?,
        };
        push_line(to, letters.as_str())
    }
}

impl Cases for Desk {
    fn answer(&mut self, kind: &str, text: &str, to: &mut String) -> Result<(), CaseFault> {
        let bytes = bytes_of(self.alloc, text)?;
        match kind {
            "input" => self.run_in_pieces(&bytes, to)?,
            "new" => self.log = Vec::new(self.alloc),
            "group" => self.log = with_group(self.alloc, self.log.as_slice(), &bytes)?,
            "run" => self.run_on(&bytes, to)?,
            "log" => push_lines(to, self.log.as_slice())?,
            "open" => self.open_with(&bytes, to)?,
            "words" => self.run_words(text, to)?,
            "changed" => {
                let value = u8::try_from(number_in(text)?).map_err(|_| CaseFault::Unreadable)?;
                self.push_letters(Some(value), to)?
            }
            "cut" => self.push_letters(None, to)?,
            _ => return Err(CaseFault::Unreadable),
        }
        Ok(())
    }
}
