// Parts of texts, letters and joined texts. A bar parts the fields of a case.
use crate::written::word_of;
use hs_casetext::{CaseFault, push_line};
use hs_scalar::{Side, char_length, concat, like, lower, substring, trim, upper};
use hs_values::{Chars, EvalFault};
use std::alloc::Global;

// The fields of a line: the first two, and what is left of it.
fn fields(line: &str) -> (&str, &str, &str) {
    let (first, rest) = line.split_once('|').unwrap_or((line, ""));
    let (second, rest) = rest.split_once('|').unwrap_or((rest, ""));
    (first, second, rest)
}

// A text in brackets, so that its ends are seen.
fn push_text(to: &mut String, text: &str) -> Result<(), CaseFault> {
    let shown = format!(in *to.allocator(); "[{text}]")?;
    Ok(push_line(to, shown.as_str())?)
}

fn push_chars(to: &mut String, answer: Result<Chars, EvalFault>) -> Result<(), CaseFault> {
    match answer {
        Ok(chars) => push_text(to, chars.as_str()),
        Err(fault) => Ok(push_line(to, word_of(fault)?)?),
    }
}

// The text without a character at the start, at the end and at both.
fn push_trimmed(to: &mut String, text: &str, c: &str) -> Result<(), CaseFault> {
    let c = c.chars().next().ok_or(CaseFault::Unreadable)?;
    push_text(to, trim(text, Side::Leading, c))?;
    push_text(to, trim(text, Side::Trailing, c))?;
    push_text(to, trim(text, Side::Both, c))
}

// The text in capitals and in small letters, and how many characters it has.
fn push_letters(to: &mut String, text: &str) -> Result<(), CaseFault> {
    let alloc = *to.allocator();
    push_chars(to, upper(alloc, text))?;
    push_chars(to, lower(alloc, text))?;
    let length = format!(in alloc; "{}", char_length(text))?;
    Ok(push_line(to, length.as_str())?)
}

/// What a call on texts gives.
pub fn answer(alloc: Global, kind: &str, line: &str, to: &mut String) -> Result<(), CaseFault> {
    let (text, second, third) = fields(line);
    match kind {
        "like" => {
            let found = like(text, second, third.chars().next());
            Ok(push_line(to, if found { "yes" } else { "no" })?)
        }
        "substring" => {
            let from = second.parse::<i64>()?;
            push_text(to, substring(text, from, third.parse::<i64>().ok()))
        }
        "trim" => push_trimmed(to, text, second),
        "letters" => push_letters(to, text),
        _ => push_chars(to, concat(alloc, text, second)),
    }
}
