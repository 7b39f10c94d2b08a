// What stands at a place of a text.
ghost use Rattle.std.specs.Prelude.{◌≡◌, Some, ◌<◌, length, MatchOption, ⊤};
ghost use Rattle.hs_lexer.specs.Pieces.{begun};

use crate::bytes::{begins_symbol, begins_word, is_digit, is_white, stands_at};
use crate::token::TokenKind;

/// A piece of a text: white space, a comment, or a token.
#[derive(Clone, Copy, Debug)]
pub enum Lexeme {
    /// One byte of white space.
    White,
    /// A comment from `--` to the end of the line.
    Line,
    /// A comment in `/*` and `*/`.
    Block,
    Token(TokenKind),
}

/// A piece at the front of some bytes, by its kind and its length.
#[derive(Clone, Copy, Debug)]
pub struct Piece {
    pub lexeme: Lexeme,
    pub len: usize,
}

/// What the first bytes begin.
pub fn begun_of(bytes: &[u8]) -> Option<Lexeme>
    ensures { result ≡ begun bytes.now }
{
    let (first, behind) = bytes.split_first()?;
    let b = *first;
    if is_white(b) {
        Some(Lexeme::White)
    } else if b == b'-' && stands_at(b'-', 0, behind) {
        Some(Lexeme::Line)
    } else if b == b'/' && stands_at(b'*', 0, behind) {
        Some(Lexeme::Block)
    } else if b == b'U' && (stands_at(b'&', 0, behind) && stands_at(b'\'', 1, behind)) {
        Some(Lexeme::Token(TokenKind::UnicodeText))
    } else if begins_word(b) {
        Some(Lexeme::Token(TokenKind::Word))
    } else if is_digit(b) {
        Some(Lexeme::Token(TokenKind::Number))
    } else if b == b'"' {
        Some(Lexeme::Token(TokenKind::Quoted))
    } else if b == b'\'' {
        Some(Lexeme::Token(TokenKind::Text))
    } else if begins_symbol(b) {
        Some(Lexeme::Token(TokenKind::Symbol))
    } else {
        None
    }
}
