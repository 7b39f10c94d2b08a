// How long a piece at the front of some bytes is.
ghost use Rattle.std.specs.Prelude.{◌≡◌, Some, ◌<◌, ◌≤◌, ◌+◌, ◌-◌, ◌^◌, true, length, drop, IfSome};
ghost use Rattle.hs_lexer.specs.Lengths as spec;
ghost use Rattle.hs_lexer.specs.Pieces.{begun};

use crate::bytes::{digit_at, digits_len, is_pair, is_single, line_len, stands_at, word_len};
use crate::lexeme::Lexeme;
use crate::token::TokenKind;

/// The place behind the `*/` with which a comment ends, of which the bytes from `at` on are left.
fn block_end(at: usize, bytes: &[u8]) -> Option<usize>
    requires { at + length bytes.now < 2 ^ 64 }
    ensures value { result ≡ spec.block_end at bytes.now }
    ensures within { IfSome result (λ end. (at < end) × (end ≤ at + length bytes.now)) }
{
    let mut rest = bytes;
    let mut place = at;
    while let Some((first, behind)) = rest.split_first() {
        if *first == b'*' && stands_at(b'/', 0, behind) {
            return Some(place + 2);
        }
        rest = behind;
        place += 1;
    }
    None
}

/// The place behind the quote that ends a text, of which the bytes from `at` on are left.
fn quote_end(quote: u8, at: usize, bytes: &[u8]) -> Option<usize>
    requires { at + length bytes.now < 2 ^ 64 }
    ensures value { result ≡ spec.quote_end quote at bytes.now }
    ensures within { IfSome result (λ end. (at < end) × (end ≤ at + length bytes.now)) }
{
    let mut rest = bytes;
    let mut place = at;
    while let Some((first, behind)) = rest.split_first() {
        if *first != quote {
            rest = behind;
            place += 1;
            continue;
        }
        if !stands_at(quote, 0, behind) {
            return Some(place + 1);
        }
        rest = &behind[1..];
        place += 2;
    }
    None
}

/// Whether a point stands at the place, and a digit behind it.
fn has_fraction(whole: usize, bytes: &[u8]) -> bool
    ensures value { result ≡ spec.has_fraction whole bytes.now }
    ensures within { result ≡ true → whole + 1 < length bytes.now }
{
    stands_at(b'.', whole, bytes) && digit_at(whole + 1, bytes)
}

fn number_len(bytes: &[u8]) -> usize
    ensures value { result ≡ spec.number_len bytes.now }
    ensures within { result ≤ length bytes.now }
{
    let whole = digits_len(bytes);
    if has_fraction(whole, bytes) {
        whole + 1 + digits_len(&bytes[whole + 1..])
    } else {
        whole
    }
}

fn symbol_len(bytes: &[u8]) -> Option<usize>
    ensures value { result ≡ spec.symbol_len bytes.now }
    ensures within { IfSome result (λ len. (0 < len) × (len ≤ length bytes.now)) }
{
    let (first, behind) = bytes.split_first()?;
    match behind.first() {
        Some(second) if is_pair(*first, *second) => Some(2),
        _ if is_single(*first) => Some(1),
        _ => None,
    }
}

/// The length of the piece that the bytes begin; `None` where it isn't finished.
#[tactic(auto, unfolding(crate::specs::Lengths::piece_len))]
pub fn piece_len(lexeme: Lexeme, bytes: &[u8]) -> Option<usize>
    requires begun { begun bytes.now ≡ Some lexeme }
    requires short { length bytes.now < 2 ^ 32 }
    ensures value { result ≡ spec.piece_len lexeme bytes.now }
    ensures within { IfSome result (λ len. (0 < len) × (len ≤ length bytes.now)) }
{
    match lexeme {
        Lexeme::White => Some(1),
        Lexeme::Line => Some(2 + line_len(&bytes[2..])),
        Lexeme::Block => block_end(2, &bytes[2..]),
        Lexeme::Token(TokenKind::Word) => Some(word_len(bytes)),
        Lexeme::Token(TokenKind::Quoted) => quote_end(b'"', 1, &bytes[1..]),
        Lexeme::Token(TokenKind::Number) => Some(number_len(bytes)),
        Lexeme::Token(TokenKind::Text) => quote_end(b'\'', 1, &bytes[1..]),
        Lexeme::Token(TokenKind::UnicodeText) => quote_end(b'\'', 3, &bytes[3..]),
        Lexeme::Token(TokenKind::Symbol) => symbol_len(bytes),
    }
}
