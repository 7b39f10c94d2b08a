// What is read of a log of which a byte was changed or an end is missing.
use crate::runs::run_over;
use hs_top::{Damage, Status};
use hs_values::Words;
use std::alloc::{AllocError, Global};

// The number of commits at which a run opened, by its first line.
fn opened_at(output: &[u8]) -> Option<u32> {
    let text = str::from_utf8(output).ok()?;
    let (_, number) = text.split_once("opened at ")?;
    let (number, _) = number.split_once('\n')?;
    number.parse::<u32>().ok()
}

// A count up to 35 as a digit or a capital letter.
fn sign_of(count: u32) -> char {
    match count {
        0..=9 => char::from(b'0' + count as u8),
        10..=35 => char::from(b'A' + (count - 10) as u8),
        _ => '?',
    }
}

// How a run over a log ended: `.` is a new database, a digit or a capital letter how many commits it opens at, a small letter the
// first damaged group, `a` for group 0, and `!` a violated constraint. Of a damaged log nothing is written, and it stays as it is.
fn letter(alloc: Global, words: &Words, log: &[u8]) -> Result<char, AllocError> {
    let run = run_over(alloc, words, b"", 100_000, log)?;
    let is_born = log.first() == Some(&1);
    let is_left = run.output.is_empty() && run.log.as_slice() == log;
    Ok(match run.status {
        Status::Done if !is_born => '.',
        Status::Done => opened_at(&run.output).map_or('?', sign_of),
        Status::Damaged(Damage::Log(group)) if is_left && group < 26 => {
            char::from(b'a' + group as u8)
        }
        Status::Damaged(Damage::Invalid(_)) if is_left => '!',
        _ => '?',
    })
}

/// The letters of a log in which one byte is this one, for each place.
pub fn letters_of_changed(
    alloc: Global,
    words: &Words,
    log: &Vec<u8>,
    value: u8,
) -> Result<String, AllocError> {
    let mut letters = String::new(alloc);
    for place in 0..log.len() {
        let mut changed = log.clone()?;
        changed[place] = value;
        letters.push(letter(alloc, words, &changed)?)?;
    }
    Ok(letters)
}

/// The letters of each beginning of a log, the empty one first and all of it last.
pub fn letters_of_cut(alloc: Global, words: &Words, log: &[u8]) -> Result<String, AllocError> {
    let mut letters = String::new(alloc);
    for len in 0..log.len() + 1 {
        letters.push(letter(alloc, words, &log[..len])?)?;
    }
    Ok(letters)
}
