// The cases, one at a time, over a catalogue that stays from one to the next.
use crate::kinds::told;
use hs_casetext::{CaseFault, Cases, push_line, text_of};
use hs_committext::{LineFault, print_change, read_change};
use hs_conditions::Checks;
use hs_plan::{Change, Definition};
use hs_resolve::Resolver;
use hs_schema::Catalog;
use hs_values::Chars;
use std::alloc::{AllocError, Global};

const CHECKS: Checks<Resolver> = Checks { binder: Resolver };

/// The catalogue that the cases so far have made, and how many definitions they were.
#[derive(Drop)]
pub struct Desk {
    catalog: Catalog,
    made: u64,
}

// Adds what a change is, and its text, each line of it as one line.
fn push_told(to: &mut String, change: &Change, text: &str) -> Result<(), AllocError> {
    let words = told(*to.allocator(), change)?;
    push_line(to, words.as_str())?;
    for line in text.split('\n') {
        push_line(to, line)?;
    }
    Ok(())
}

impl Desk {
    pub fn new(alloc: Global) -> Desk {
        Desk {
            catalog: Catalog::new(alloc),
            made: 0,
        }
    }

    // Adds what change has this text, and the text that is printed of it; or that there is none.
    #[tactic(auto, using(hs_committext::proofs::Printable::text_printable))]
    fn read(&self, text: &str, to: &mut String) -> Result<Option<Change>, CaseFault> {
        match read_change(text, &self.catalog, &CHECKS) {
            Ok(change) => {
                let mut printed = Chars::new(self.catalog.alloc());
                if print_change(&change, &self.catalog, &CHECKS, &mut printed).is_err() {
                    return Err(CaseFault::NoMemory);
                }
                push_told(to, &change, printed.as_str())?;
                Ok(Some(change))
            }
            Err(LineFault::Broken) => {
                push_line(to, "broken")?;
                Ok(None)
            }
            Err(LineFault::NoMemory) => Err(CaseFault::NoMemory),
        }
    }

    // Makes a definition with the next number, and says whether it can.
    fn make(&mut self, definition: &Definition) -> Result<bool, CaseFault> {
        let Some(number) = self.made.checked_add(1) else {
            return Ok(false);
        };
        if !self.catalog.is_bound(definition) || !self.catalog.is_next(definition, number) {
            return Ok(false);
        }
        if self.catalog.define(definition, number).is_err() {
            return Err(CaseFault::NoMemory);
        }
        self.made = number;
        Ok(true)
    }

    // Reads a definition and makes it, and says so where it can't be made.
    fn define(&mut self, text: &str, to: &mut String) -> Result<(), CaseFault> {
        if let Some(Change::Define(definition)) = self.read(text, to)? {
            if self.make(definition.get())? {
                return Ok(());
            }
        }
        Ok(push_line(to, "can't be made")?)
    }
}

impl Cases for Desk {
    fn answer(&mut self, kind: &str, text: &str, to: &mut String) -> Result<(), CaseFault> {
        let written = text_of(self.catalog.alloc(), text)?;
        match kind {
            "define" => self.define(written.as_str(), to),
            "line" => match self.read(written.as_str(), to)? {
                Some(_) => Ok(()),
                None => Ok(()),
            },
            _ => Err(CaseFault::Unreadable),
        }
    }
}
