// Lines with the numbers of the changes that made their things, as they are read.
ghost use Rattle.std.specs.Prelude.{◌≡◌, ◌++◌, ◌∷◌, false, List, ℕ, IfOk, MatchOption};
ghost use Rattle.hs_parttext.specs.Lines.{has_feed};
ghost use Rattle.hs_valuetext.specs.Finding.{Finds, Knows};
ghost use Rattle.hs_script.specs.Numbered.{IsWord, line_end, IsNumberedLine, IsNumberedAt, IsPast, IsRunAt};

use crate::lines::next_line;
use hs_values::Chars;
use hs_valuetext::read_unsigned;
use std::alloc::{AllocError, Global};

/// What is before the last space, and what is behind it. None where there is none.
fn last_word(text: &str) -> Option<(&str, &str)>
    ensures { MatchOption result (IsWord text.now) (λ p. (text.now ≡ p.0.now ++ 32 ∷ p.1.now) × IsWord p.1.now) }
{
    text.rsplit_once(' ')
}

/// What is before the word NUMBER and a number at the end of a line, and the number.
fn read_numbered_line(line: &str) -> Option<(&str, u64)>
    ensures { Knows (λ p. (p.0.now, p.1)) (IsNumberedLine line.now) result }
{
    let Some((front, digits)) = last_word(line) else {
        return None;
    };
    let Some((said, word)) = last_word(front) else {
        return None;
    };
    let Some(number) = read_unsigned(digits) else {
        return None;
    };
    if word == "NUMBER" {
        Some((said, number))
    } else {
        None
    }
}

/// The line at the front of the text without its number, the number, and what is behind the line.
fn next_numbered(text: &str) -> Option<((&str, u64), &str)>
    ensures { Finds (λ p. (p.0.now, p.1)) (IsNumberedAt text.now) result }
{
    let Some((line, rest)) = next_line(text) else {
        return None;
    };
    match read_numbered_line(line) {
        Some(said) => Some((said, rest)),
        None => None,
    }
}

/// The line at the front of the text without its number, where this is its number, and what is behind the line.
fn next_of(text: &str, number: u64) -> Option<(&str, &str)>
    ensures { MatchOption result (IsPast number text.now) (λ p. (has_feed p.0.now ≡ false) × (text.now ≡ p.0.now ++ (line_end number ++ p.1.now))) }
{
    match next_numbered(text) {
        Some(((line, other), rest)) => {
            if other == number {
                Some((line, rest))
            } else {
                None
            }
        }
        None => None,
    }
}

/// All lines of one number at the front of the text: the number, and the lines without it, with line feeds between them; and
/// what is behind them. None exactly where there is none.
pub(crate) fn read_run(
    alloc: Global,
    text: &str,
) -> Result<Option<((u64, Chars), &str)>, AllocError>
    ensures { IfOk result (λ found. Finds (λ p. p) (IsRunAt text.now) found) }
{
    let Some(((line, number), behind)) = next_numbered(text) else {
        return Ok(None);
    };
    let mut said = Chars::from_text(alloc, line)?;
    let mut rest = behind;
    while let Some((more, others)) = next_of(rest, number) {
        said.push_text("\n")?;
        said.push_text(more)?;
        rest = others;
    }
    Ok(Some(((number, said), rest)))
}
