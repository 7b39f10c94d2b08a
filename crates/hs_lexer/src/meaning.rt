// What a token says: the name that a word or a quoted name is, and the text of a text.
ghost use Rattle.std.specs.Prelude.{◌≡◌, ◌+◌, ◌<◌, ◌∷◌, ◌++◌, drop, length, IfOk, MatchOption, string_bytes, encode_utf8};
ghost use Rattle.hs_lexer.specs.Content as spec;

use crate::escapes::{coded, escape_len};
use crate::token::{Token, TokenKind};
use std::alloc::{AllocError, Global};

/// Whether a character begins at the place, or the text ends there.
fn is_cut(text: &str, at: usize) -> bool
    ensures { result ≡ spec.is_cut text.now at }
{
    let bytes = text.as_bytes();
    match bytes.get(at) {
        Some(b) => *b < 128 || 192 <= *b,
        None => at == bytes.len(),
    }
}

/// The text from one place to another; nothing, where that is no text.
#[tactic(auto, using(crate::proofs::Cuts::boundary), unfolding(crate::specs::Content::slice_of))]
fn slice(text: &str, from: usize, to: usize) -> &str
    ensures { result.now ≡ spec.slice_of text.now from to }
{
    if from <= to && is_cut(text, from) && is_cut(text, to) {
        &text[from..to]
    } else {
        ""
    }
}

/// A token as it is written; nothing, where the token is no slice of the text.
pub fn written(text: &str, token: Token) -> &str
    ensures { result.now ≡ spec.written text.now token }
{
    slice(text, token.start as usize, token.end as usize)
}

fn in_quotes(front: usize, text: &str, token: Token) -> &str
    requires { front < 4 }
    ensures { result.now ≡ spec.in_quotes front text.now token }
{
    slice(
        text,
        token.start as usize + front,
        (token.end as usize).saturating_sub(1),
    )
}

/// What stands between the quotes of a text in `'` or of a quoted name, as it is written.
pub fn between_quotes(text: &str, token: Token) -> &str
    ensures { result.now ≡ spec.in_quotes 1 text.now token }
{
    in_quotes(1, text, token)
}

/// What stands behind a quote, without a second one.
fn past_second(quote: char, behind: &str) -> &str
    requires { quote < 128 }
    ensures { result.now ≡ spec.past_second quote behind.now }
{
    match behind.strip_prefix(quote) {
        Some(rest) => rest,
        None => behind,
    }
}

/// What stands before the first quote, and what is left behind it.
#[tactic(auto, using(crate::proofs::Parts::quote_parts))]
fn quote_part(quote: char, text: &str) -> Option<(&str, &str)>
    requires { quote < 128 }
    ensures { MatchOption result (spec.undoubled quote text.now ≡ text.now)
        (λ part. (spec.undoubled quote text.now ≡ part.0.now ++ (quote ∷ spec.undoubled quote part.1.now)) × (length part.1.now < length text.now)) }
{
    match text.split_once(quote) {
        Some((front, behind)) => Some((front, past_second(quote, behind))),
        None => None,
    }
}

/// The text with two quotes, one behind the other, as one.
fn undoubled(alloc: Global, quote: char, text: &str) -> Result<String, AllocError>
    requires { quote < 128 }
    ensures { IfOk result (λ one. string_bytes one ≡ spec.undoubled quote text.now) }
{
    let mut out = String::with_capacity(alloc, text.len())?;
    let mut rest = text;
    while let Some((front, behind)) = quote_part(quote, rest) {
        out.push_str(front)?;
        out.push(quote)?;
        rest = behind;
    }
    out.push_str(rest)?;
    Ok(out)
}

/// The character that is meant by a `\` before this.
fn meant(behind: &str) -> char
    ensures { encode_utf8 result ≡ spec.meant behind.now }
{
    if behind.starts_with('\\') {
        return '\\';
    }
    match coded(behind.as_bytes()) {
        Some(c) => c,
        None => '\\',
    }
}

/// What stands behind an escape, of which the `\` stands before this.
#[tactic(auto, using(crate::proofs::Parts::escape_boundary))]
fn past_escape(behind: &str) -> &str
    ensures { result.now ≡ drop (spec.escape_len behind.now) behind.now }
{
    &behind[escape_len(behind.as_bytes())..]
}

/// What stands before the first `\`, the character that is meant by its escape, and what is left behind it.
#[tactic(auto, using(crate::proofs::Parts::escape_parts))]
fn escape_part(text: &str) -> Option<(&str, char, &str)>
    ensures { MatchOption result (spec.unescaped 0 text.now ≡ text.now)
        (λ part. (spec.unescaped 0 text.now ≡ part.0.now ++ (encode_utf8 part.1 ++ spec.unescaped 0 part.2.now)) × (length part.2.now < length text.now)) }
{
    match text.split_once('\\') {
        Some((front, behind)) => Some((front, meant(behind), past_escape(behind))),
        None => None,
    }
}

/// The text with each escape as the character that is meant.
fn unescaped(alloc: Global, text: &str) -> Result<String, AllocError>
    ensures { IfOk result (λ plain. string_bytes plain ≡ spec.unescaped 0 text.now) }
{
    let mut out = String::with_capacity(alloc, text.len())?;
    let mut rest = text;
    while let Some((front, c, behind)) = escape_part(rest) {
        out.push_str(front)?;
        out.push(c)?;
        rest = behind;
    }
    out.push_str(rest)?;
    Ok(out)
}

/// The name that a token is: a word in capitals, or what stands in the quotes of a quoted name, where `""` is a quote.
/// Of any other token, what is written in capitals.
#[tactic(auto, unfolding(crate::specs::Content::name_of))]
pub fn name(alloc: Global, text: &str, token: Token) -> Result<String, AllocError>
    ensures { IfOk result (λ name. string_bytes name ≡ spec.name_of text.now token) }
{
    match token.kind {
        TokenKind::Quoted => undoubled(alloc, '"', in_quotes(1, text, token)),
        TokenKind::Word => written(text, token).to_ascii_uppercase(alloc),
        TokenKind::Number => written(text, token).to_ascii_uppercase(alloc),
        TokenKind::Text => written(text, token).to_ascii_uppercase(alloc),
        TokenKind::UnicodeText => written(text, token).to_ascii_uppercase(alloc),
        TokenKind::Symbol => written(text, token).to_ascii_uppercase(alloc),
    }
}

/// The text that a token is: what stands in its quotes, where `''` is a quote, and behind `U&` with each escape as the
/// character that is meant: `\\` as `\`, and `\` with four hexadecimal digits as the character of that number. Of any other
/// token, what is written.
#[tactic(auto, unfolding(crate::specs::Content::text_of))]
pub fn content(alloc: Global, text: &str, token: Token) -> Result<String, AllocError>
    ensures { IfOk result (λ content. string_bytes content ≡ spec.text_of text.now token) }
{
    match token.kind {
        TokenKind::Text => undoubled(alloc, '\'', in_quotes(1, text, token)),
        TokenKind::UnicodeText => {
            let quoted = undoubled(alloc, '\'', in_quotes(3, text, token))?;
            unescaped(alloc, quoted.as_str())
        }
        TokenKind::Word => String::from_str(alloc, written(text, token)),
        TokenKind::Quoted => String::from_str(alloc, written(text, token)),
        TokenKind::Number => String::from_str(alloc, written(text, token)),
        TokenKind::Symbol => String::from_str(alloc, written(text, token)),
    }
}
