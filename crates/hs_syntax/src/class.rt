// The classes of tokens.
ghost use Rattle.std.specs.Prelude.{◌≡◌, ◌+◌, ◌<◌, ◌≤◌, nat_eq, length, map, slice_index_or, IfOk};
ghost use Rattle.std.specs.List.{list_any, list_all};
ghost use Rattle.std.specs.Str.{str_eq_ignore_ascii_case};
ghost use Rattle.hs_lexer.specs.Bytes as bytes_spec;
ghost use Rattle.hs_lexer.specs.Content.{undoubled, in_quotes};
ghost use Rattle.hs_syntax.specs.Classes as spec;
ghost use Rattle.hs_syntax.specs.Letters as letters;

use crate::words::{
    ABOVE, DIGIT_TEXT, FRACTION, IDENTIFIER, KEYWORDS, MIDDLE, NOTHING, OTHER_TEXT, SIGNS, SMALL,
    STARTS,
};
use hs_lexer::{Token, TokenKind, between_quotes, content, written};
use std::alloc::{AllocError, Global};

fn same_word(a: &[u8], b: &[u8]) -> bool
    ensures { result ≡ str_eq_ignore_ascii_case a.now b.now }
{
    a.eq_ignore_ascii_case(b)
}

/// The class beside a word, without regard to case; the other one where the word isn't there.
fn lookup(mut table: &[(&[u8], u8)], word: &[u8], other: u8) -> u8
    ensures { result ≡ spec.lookup (map (λ entry. (entry.0.now, entry.1)) table.entry.now) word.now other }
{
    while let [entry, rest @ ..] = table {
        if same_word(entry.0, word) {
            return entry.1;
        }
        table = rest;
    }
    other
}

/// The number of a word's first letter, A being 1. Words that differ only in case have the same.
fn letter_of(word: &[u8]) -> usize
    ensures value { result ≡ letters.letter_of word.now }
    ensures within { result < 32 }
{
    match word.first() {
        Some(first) => usize::from(*first % 32),
        None => 0,
    }
}

/// The class beside a word; the other one where the word isn't there. Of the table's words those with letter k stand from the
/// k-th of the starts to the next one.
fn lookup_by_letter(table: &[(&[u8], u8)], starts: &[u8], word: &[u8], other: u8) -> u8
    ensures { result ≡ letters.lookup_by_letter (map (λ entry. (entry.0.now, entry.1)) table.now) starts.now word.now other }
{
    let letter = letter_of(word);
    let first = start(starts, letter);
    let end = start(starts, letter + 1);
    match table.get(first..end) {
        Some(words) => lookup(words, word, other),
        None => other,
    }
}

/// One of the starts; 0 behind them.
fn start(starts: &[u8], letter: usize) -> usize
    ensures { result ≡ slice_index_or starts.now letter 0 }
{
    match starts.get(letter) {
        Some(start) => usize::from(*start),
        None => 0,
    }
}

/// The class of a word, which is looked up among those with its first letter.
pub fn word_class(word: &[u8]) -> u8
    ensures { result ≡ spec.word_class word.now }
{
    lookup_by_letter(&KEYWORDS, &STARTS, word, IDENTIFIER)
}

#[tactic(auto, unfolding(crate::specs::Classes::sign_class))]
fn sign_class(sign: &[u8]) -> u8
    ensures { result ≡ spec.sign_class sign.now }
{
    lookup(&SIGNS, sign, NOTHING)
}

/// The class of the whole number that these digits spell.
fn whole_class(digits: &[u8]) -> u8
    ensures { result ≡ spec.whole_class (spec.value_after 0 digits.now) }
{
    let mut value: u32 = 0;
    for digit in digits {
        value = value * 10 + u32::from(digit.saturating_sub(48));
        if value > 4000 {
            return ABOVE;
        }
    }
    if value <= 38 {
        SMALL + value as u8
    } else {
        MIDDLE
    }
}

fn has_point(number: &[u8]) -> bool
    ensures { result ≡ list_any (λ b. nat_eq b 46) number.now }
{
    number.iter().any(|b| *b == b'.')
}

#[tactic(auto, unfolding(crate::specs::Classes::number_class))]
fn number_class(number: &[u8]) -> u8
    ensures { result ≡ spec.number_class number.now }
{
    if has_point(number) {
        FRACTION
    } else {
        whole_class(number)
    }
}

fn are_digits(text: &[u8]) -> bool
    ensures { result ≡ list_all bytes_spec.is_digit text.now }
{
    text.iter().all(|b| 48 <= *b && *b <= 57)
}

fn is_digit_text(text: &[u8]) -> bool
    ensures { result ≡ spec.is_digit_text text.now }
{
    0 < text.len() && text.len() <= 18 && are_digits(text)
}

fn text_class(text: &[u8]) -> u8
    ensures { result ≡ spec.text_class text.now }
{
    if is_digit_text(text) {
        DIGIT_TEXT
    } else {
        OTHER_TEXT
    }
}

/// The class of a text in `'`, by what stands between its quotes: two quotes are no digits.
#[tactic(auto, using(crate::proofs::Digits::quoted_class))]
fn quoted_class(source: &str, token: Token) -> u8
    ensures { result ≡ spec.text_class (undoubled 39 (in_quotes 1 source.now token)) }
{
    text_class(between_quotes(source, token).as_bytes())
}

/// The class of a token of a text.
#[tactic(auto, unfolding(crate::specs::Classes::class_of, hs_lexer::specs::Content::text_of))]
fn class_of(alloc: Global, source: &str, token: Token) -> Result<u8, AllocError>
    ensures { IfOk result (λ class. class ≡ spec.class_of source.now token) }
{
    match token.kind {
        TokenKind::Word => Ok(word_class(written(source, token).as_bytes())),
        TokenKind::Quoted => Ok(IDENTIFIER),
        TokenKind::Number => Ok(number_class(written(source, token).as_bytes())),
        TokenKind::Text => Ok(quoted_class(source, token)),
        TokenKind::UnicodeText => {
            let text = content(alloc, source, token)?;
            Ok(text_class(text.as_bytes()))
        }
        TokenKind::Symbol => Ok(sign_class(written(source, token).as_bytes())),
    }
}

/// The classes of tokens of a text, in order. A word is of its own class where the grammar has it, without regard to case;
/// a number is classed by its value, a text by whether it is 1 to 18 digits.
pub fn classes(alloc: Global, source: &str, tokens: &[Token]) -> Result<Vec<u8>, AllocError>
    ensures { IfOk result (λ classes. classes.items ≡ spec.classes_of source.now tokens.now) }
{
    let mut classes = Vec::with_capacity(alloc, tokens.len())?;
    for token in tokens {
        let class = class_of(alloc, source, *token)?;
        classes.push(class)?;
    }
    Ok(classes)
}
