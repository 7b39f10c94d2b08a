// The cases: inputs, and how they are given.
use crate::asked::{answers, asked};
use crate::sources::{numbers_in, source};
use hs_casetext::{CaseFault, Cases, bytes_of, number_in, push_line};
use std::alloc::{AllocError, Global};

/// What answers the cases.
#[derive(Drop)]
pub struct Inputs {
    pub alloc: Global,
}

// The answers for an input that is given in pieces of this length.
fn answers_to(alloc: Global, limit: u64, input: &[u8], piece: usize) -> Result<String, AllocError> {
    let mut source = source(alloc, input, [piece].to_vec(alloc)?, Vec::new(alloc))?;
    answers(alloc, limit, &mut source)
}

// Adds the answers for an input that is given in pieces of each length, those of another length only where they are others.
fn push_answers(
    to: &mut String,
    limit: u64,
    input: &[u8],
    pieces: &[usize],
) -> Result<(), AllocError> {
    let alloc = *to.allocator();
    let mut before = String::new(alloc);
    for piece in pieces {
        let found = answers_to(alloc, limit, input, *piece)?;
        if found.as_str() != before.as_str() {
            if !before.is_empty() {
                push_line(to, format!(in alloc; "in pieces of {piece}:")?.as_str())?;
            }
            to.push_str(found.as_str())?;
        }
        before = found;
    }
    Ok(())
}

// What stands before the next space, which is taken away.
fn next_part<'a>(rest: &mut &'a str) -> Result<&'a str, CaseFault> {
    let (part, more) = rest.split_once(' ').ok_or(CaseFault::Unreadable)?;
    *rest = more;
    Ok(part)
}

// The call that fails, or `-` for none.
fn failing_in(alloc: Global, text: &str) -> Result<Vec<u64>, CaseFault> {
    if text == "-" {
        return Ok(Vec::new(alloc));
    }
    Ok([u64::from(number_in(text)?)].to_vec(alloc)?)
}

// A limit, how many answers are asked for, the lengths of the pieces, the call that fails, and the input.
fn push_asked(to: &mut String, mut text: &str) -> Result<(), CaseFault> {
    let alloc = *to.allocator();
    let limit = number_in(next_part(&mut text)?)?;
    let times = number_in(next_part(&mut text)?)?;
    let pieces = numbers_in(alloc, next_part(&mut text)?)?;
    let failing = failing_in(alloc, next_part(&mut text)?)?;
    let input = bytes_of(alloc, text)?;
    let mut source = source(alloc, &input, pieces, failing)?;
    to.push_str(asked(alloc, u64::from(limit), &mut source, times)?.as_str())?;
    Ok(())
}

impl Cases for Inputs {
    fn answer(&mut self, kind: &str, mut text: &str, to: &mut String) -> Result<(), CaseFault> {
        match kind {
            "items" => push_answers(to, 999, &bytes_of(self.alloc, text)?, &[100_000, 1, 3])?,
            "limit" => {
                let limit = number_in(next_part(&mut text)?)?;
                let input = bytes_of(self.alloc, text)?;
                push_answers(to, u64::from(limit), &input, &[100_000, 1, 3])?
            }
            "long" => {
                let pieces = [1_000_000, 100_000, 65_536, 65_535, 4_096, 777];
                push_answers(to, 1_000_000, &bytes_of(self.alloc, text)?, &pieces)?
            }
            "asked" => push_asked(to, text)?,
            _ => return Err(CaseFault::Unreadable),
        }
        Ok(())
    }
}
