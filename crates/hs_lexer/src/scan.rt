// The tokens of a text, piece by piece.
ghost use Rattle.std.specs.Prelude.{◌≡◌, ◌≢◌, ◌+◌, ◌^◌, ◌<◌, ◌≤◌, ◌++◌, length, drop, Err, count_by, Some, IfOk, OnOk, IfErr, slice_range};
ghost use Rattle.hs_lexer.specs.declared.fault.LexFault.TheVariants.{NoMemory};
ghost use Rattle.hs_lexer.specs.Bytes as bytes_spec;
ghost use Rattle.hs_lexer.specs.Content as content_spec;
ghost use Rattle.hs_lexer.specs.Reading as spec;
ghost use Rattle.hs_lexer.specs.Tokens.{AreTokens, IsFault};

use crate::bytes::is_digit;
use crate::escapes::{is_quoted_name, is_word_name, lone_escape};
use crate::fault::LexFault;
use crate::lengths::piece_len;
use crate::lexeme::{Lexeme, Piece, begun_of};
use crate::token::{Token, TokenKind, Tokens};
use std::alloc::Global;

/// A piece without as many bytes at its front and one at its end.
fn inside(front: usize, piece: &[u8]) -> &[u8]
    ensures value { result.now ≡ content_spec.inside front piece.now }
    ensures within { 0 < length result.now → front + length result.now < length piece.now }
{
    let end = piece.len().saturating_sub(1);
    if front <= end {
        &piece[front..end]
    } else {
        &piece[..0]
    }
}

fn bad_name(at: usize, is_name: bool) -> Option<LexFault>
    requires { at < 2 ^ 32 }
    ensures { result ≡ spec.bad_unless at is_name }
{
    if is_name {
        None
    } else {
        Some(LexFault::BadChar(at as u32))
    }
}

fn bad_escape(at: usize, text: &[u8]) -> Option<LexFault>
    requires place { at < 2 ^ 33 }
    requires within { 0 < length text.now → at + length text.now < 2 ^ 32 }
    ensures { result ≡ spec.bad_at (content_spec.lone_escape at 0 text.now) }
{
    match lone_escape(at, text) {
        Some(place) => Some(LexFault::BadChar(place as u32)),
        None => None,
    }
}

fn wide(at: usize, digits: usize) -> Option<LexFault>
    requires { at < 2 ^ 32 }
    ensures { result ≡ spec.wide_at at digits }
{
    if digits <= 38 {
        None
    } else {
        Some(LexFault::WideNumber(at as u32))
    }
}

fn digit_count(piece: &[u8]) -> usize
    ensures { result ≡ count_by bytes_spec.is_digit piece.now }
{
    piece.iter().filter(|b| is_digit(**b)).count()
}

/// What is wrong with a piece that stands at a place.
#[tactic(auto, unfolding(crate::specs::Reading::fault_in))]
fn fault_in(at: usize, lexeme: Lexeme, piece: &[u8]) -> Option<LexFault>
    requires { at + length piece.now < 2 ^ 32 }
    ensures { result ≡ spec.fault_in at lexeme piece.now }
{
    match lexeme {
        Lexeme::White => None,
        Lexeme::Line => None,
        Lexeme::Block => None,
        Lexeme::Token(TokenKind::Word) => bad_name(at, is_word_name(piece)),
        Lexeme::Token(TokenKind::Quoted) => bad_name(at, is_quoted_name(inside(1, piece))),
        Lexeme::Token(TokenKind::Number) => wide(at, digit_count(piece)),
        Lexeme::Token(TokenKind::Text) => None,
        Lexeme::Token(TokenKind::UnicodeText) => bad_escape(at + 3, inside(3, piece)),
        Lexeme::Token(TokenKind::Symbol) => None,
    }
}

/// What a piece that isn't finished is.
#[tactic(auto, unfolding(crate::specs::Reading::unfinished))]
fn unfinished(at: usize, lexeme: Lexeme) -> LexFault
    requires { at < 2 ^ 32 }
    ensures { result ≡ spec.unfinished at lexeme }
{
    match lexeme {
        Lexeme::White => LexFault::OpenQuote(at as u32),
        Lexeme::Line => LexFault::OpenQuote(at as u32),
        Lexeme::Block => LexFault::OpenQuote(at as u32),
        Lexeme::Token(TokenKind::Word) => LexFault::OpenQuote(at as u32),
        Lexeme::Token(TokenKind::Quoted) => LexFault::OpenQuote(at as u32),
        Lexeme::Token(TokenKind::Number) => LexFault::OpenQuote(at as u32),
        Lexeme::Token(TokenKind::Text) => LexFault::OpenQuote(at as u32),
        Lexeme::Token(TokenKind::UnicodeText) => LexFault::OpenQuote(at as u32),
        Lexeme::Token(TokenKind::Symbol) => LexFault::BadChar(at as u32),
    }
}

/// The piece of this kind and length at the front, if nothing is wrong with it.
fn measured(at: usize, bytes: &[u8], lexeme: Lexeme, len: usize) -> Result<Piece, LexFault>
    requires place { at + length bytes.now < 2 ^ 32 }
    requires within { len ≤ length bytes.now }
    ensures { result ≡ spec.measured at bytes.now lexeme (Some len) }
{
    match fault_in(at, lexeme, &bytes[..len]) {
        Some(fault) => Err(fault),
        None => Ok(Piece { lexeme, len }),
    }
}

/// The piece at the front of what is left, which begins at a place.
#[tactic(auto, unfolding(crate::specs::Reading::front_of))]
fn front(at: usize, bytes: &[u8]) -> Result<Piece, LexFault>
    requires { at + length bytes.now < 2 ^ 32 }
    ensures value { result ≡ spec.front_of at bytes.now }
    ensures within { IfOk result (λ piece. (0 < piece.len) × (piece.len ≤ length bytes.now)) }
{
    let lexeme = match begun_of(bytes) {
        Some(lexeme) => lexeme,
        None => return Err(LexFault::BadChar(at as u32)),
    };
    match piece_len(lexeme, bytes) {
        Some(len) => measured(at, bytes, lexeme, len),
        None => Err(unfinished(at, lexeme)),
    }
}

/// Adds the token that a piece is, if it is one.
fn put(tokens: &mut Tokens, at: usize, piece: Piece) -> Result<(), LexFault>
    requires { at + piece.len < 2 ^ 32 }
    ensures ok { OnOk result (tokens.new ≡ tokens.old ++ spec.token_of piece.lexeme at piece.len) }
    ensures err { IfErr result (λ fault. fault ≡ NoMemory) }
{
    if let Lexeme::Token(kind) = piece.lexeme {
        tokens.push(Token {
            kind,
            start: at as u32,
            end: (at + piece.len) as u32,
        })?;
    }
    Ok(())
}

/// Takes the piece at the front of what is left, and gives its length.
#[tactic(auto, using(crate::proofs::Rounds::rounds))]
fn take_piece(tokens: &mut Tokens, at: usize, rest: &[u8]) -> Result<usize, LexFault>
    requires some { 0 < length rest.now }
    requires place { at + length rest.now < 2 ^ 32 }
    ensures within { IfOk result (λ len. (0 < len) × (len ≤ length rest.now)) }
    ensures ok { IfOk result (λ len. spec.read_on tokens.new (at + len) (drop len rest.now) ≡ spec.read_on tokens.old at rest.now) }
    ensures err { IfErr result (λ fault. fault ≢ NoMemory → spec.read_on tokens.old at rest.now ≡ Err fault) }
{
    match front(at, rest) {
        Err(fault) => Err(fault),
        Ok(piece) => match put(tokens, at, piece) {
            Err(fault) => Err(fault),
            Ok(()) => Ok(piece.len),
        },
    }
}

/// The tokens of a text, in order: its slices that are no white space and no comment, each the longest of the kind that
/// begins at its place. `/*` and `*/` hold a comment, and `--` begins one that goes to the end of the line.
///
/// The fault is the first in the text; `LexFault` says when each comes.
#[tactic(auto, using(crate::proofs::Rounds::rounds))]
pub fn tokens(alloc: Global, text: &str) -> Result<Tokens, LexFault>
    requires { length text.now < 2 ^ 32 }
    ensures { spec.Gives (λ tokens. tokens) result (spec.tokens_of text.now) }
{
    // Most statements have fewer tokens than that.
    let mut tokens = Tokens::with_capacity(alloc, text.len() / 3 + 1)?;
    let mut rest = text.as_bytes();
    let mut at: usize = 0;
    while !rest.is_empty() {
        match take_piece(&mut tokens, at, rest) {
            Err(fault) => return Err(fault),
            Ok(len) => {
                rest = &rest[len..];
                at += len;
            }
        }
    }
    Ok(tokens)
}
