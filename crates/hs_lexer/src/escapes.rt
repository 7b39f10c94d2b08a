// What stands in the quotes of a piece.
ghost use Rattle.std.specs.Prelude.{◌≡◌, ◌+◌, ◌^◌, ◌<◌, ◌≤◌, true, length, IfSome, Option};
ghost use Rattle.hs_lexer.specs.Content as spec;

use crate::bytes::{is_control, is_digit, stands_at};

fn is_name_len(len: usize) -> bool
    ensures { result ≡ spec.is_name_len len }
{
    0 < len && len <= 128
}

fn lacks_control(name: &[u8]) -> bool
    ensures { result ≡ spec.lacks_control name.now }
{
    name.iter().all(|b| !is_control(*b))
}

/// Whether the bytes in the quotes are a name: from 1 to 128 bytes, and no control character.
#[tactic(auto, using(crate::proofs::Steps::undoubled_steps))]
pub fn is_quoted_name(inside: &[u8]) -> bool
    ensures { result ≡ spec.is_name (spec.undoubled 34 inside.now) }
{
    let mut rest = inside;
    let mut len: usize = 0;
    while let Some((first, behind)) = rest.split_first() {
        if is_control(*first) {
            return false;
        }
        len += 1;
        if *first == b'"' && stands_at(b'"', 0, behind) {
            rest = &behind[1..];
            continue;
        }
        rest = behind;
    }
    is_name_len(len)
}

/// Whether a word is a name.
pub fn is_word_name(word: &[u8]) -> bool
    ensures { result ≡ spec.is_name word.now }
{
    is_name_len(word.len()) && lacks_control(word)
}

fn is_hex(b: u8) -> bool
    ensures { result ≡ spec.is_hex b }
{
    is_digit(b) || 65 <= b && b <= 70 || 97 <= b && b <= 102
}

fn hex_value(b: u8) -> u32
    requires { spec.is_hex b ≡ true }
    ensures value { result ≡ spec.hex_value b }
    ensures small { result < 16 }
{
    if b < 65 {
        b as u32 - 48
    } else if b < 97 {
        b as u32 - 55
    } else {
        b as u32 - 87
    }
}

/// The character that four hexadecimal digits at the front name.
pub fn coded(bytes: &[u8]) -> Option<char>
    ensures value { result ≡ spec.coded bytes.now }
    ensures within { IfSome result (λ _. 4 ≤ length bytes.now) }
{
    match bytes {
        [a, b, c, d, ..] if is_hex(*a) && is_hex(*b) && is_hex(*c) && is_hex(*d) => {
            char::from_u32(
                hex_value(*a) * 4096 + hex_value(*b) * 256 + hex_value(*c) * 16 + hex_value(*d),
            )
        }
        _ => None,
    }
}

/// How many of the bytes behind a `\` belong to its escape, 0 where it begins none.
pub fn escape_len(bytes: &[u8]) -> usize
    ensures value { result ≡ spec.escape_len bytes.now }
    ensures within { result ≤ length bytes.now }
{
    if stands_at(b'\\', 0, bytes) {
        1
    } else if coded(bytes).is_some() {
        4
    } else {
        0
    }
}

/// The place of the first `\` that begins no escape, where the first of the bytes stands at `at`.
pub fn lone_escape(at: usize, bytes: &[u8]) -> Option<usize>
    requires { at + length bytes.now < 2 ^ 64 }
    ensures value { result ≡ spec.lone_escape at 0 bytes.now }
    ensures within { IfSome result (λ place. (at ≤ place) × (place < at + length bytes.now)) }
{
    let mut rest = bytes;
    let mut place = at;
    while let Some((first, behind)) = rest.split_first() {
        if *first != b'\\' {
            rest = behind;
            place += 1;
            continue;
        }
        let len = escape_len(behind);
        if len == 0 {
            return Some(place);
        }
        rest = &behind[len..];
        place += 1 + len;
    }
    None
}
