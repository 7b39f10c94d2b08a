// Control characters and `\` in texts.
ghost use Rattle.std.specs.Prelude.{◌≡◌, ◌∷◌, ◌++◌, ◌<◌, OnOk, IfOk, encode_utf8};
ghost use Rattle.std.specs.Char.{digit_char};
ghost use Rattle.std.specs.List.{flat_map};
ghost use Rattle.hs_valuetext.specs.Finding.{Finds, Knows};
ghost use Rattle.hs_valuetext.specs.Texts.{is_control, has_control, escaped_byte, escaped, IsControlOf};

use hs_values::Chars;
use std::alloc::{AllocError, Global};

fn is_control(byte: u8) -> bool
    ensures { result ≡ is_control byte }
{
    byte < 32 || byte == 127
}

/// Whether a text has a control character.
pub(crate) fn has_control(text: &[u8]) -> bool
    ensures { result ≡ has_control text.now }
{
    text.iter().any(|byte| is_control(*byte))
}

/// The hexadecimal digit of a number.
fn hexadecimal(number: u32) -> char
    requires { number < 16 }
    ensures { result ≡ digit_char number }
{
    match char::from_digit(number, 16) {
        Some(digit) => digit,
        None => unreachable!(),
    }
}

#[tactic(auto, using(crate::proofs::EscapeLemmas::escaped_plain))]
/// Adds a character as it stands behind `U&`.
fn push_escaped(c: char, out: &mut Chars) -> Result<(), AllocError>
    ensures { OnOk result (out.new ≡ out.old ++ flat_map escaped_byte (encode_utf8 c)) }
{
    let code = c as u32;
    if code < 32 || code == 127 {
        out.push_text("\\00")?;
        out.push(hexadecimal(code / 16))?;
        out.push(hexadecimal(code % 16))
    } else if c == '\\' {
        out.push_text("\\\\")
    } else {
        out.push(c)
    }
}

/// The text as it stands behind `U&`, before its quotes are doubled.
pub(crate) fn escape(alloc: Global, text: &str) -> Result<Chars, AllocError>
    ensures { IfOk result (λ made. made ≡ escaped text.now) }
{
    let mut out = Chars::new(alloc);
    for c in text.chars() {
        push_escaped(c, &mut out)?;
    }
    Ok(out)
}

/// The number of a lower-case hexadecimal digit.
fn hexadecimal_value(digit: u8) -> Option<u8>
    ensures { Knows (λ d. d) (λ d. (d < 16) × (digit_char d ≡ digit)) result }
{
    match digit {
        b'0'..=b'9' => Some(digit - b'0'),
        b'a'..=b'f' => Some(digit - b'a' + 10),
        _ => None,
    }
}

/// The control character of two hexadecimal digits.
fn control_of(high: u8, low: u8) -> Option<u8>
    ensures { Knows (λ b. b) (λ b. IsControlOf b high low) result }
{
    let high = hexadecimal_value(high)?;
    let low = hexadecimal_value(low)?;
    let byte = high * 16 + low;
    if is_control(byte) { Some(byte) } else { None }
}

/// The byte whose escape goes on so behind its `\`, and what is behind it.
fn behind_backslash(text: &[u8]) -> Option<(u8, &[u8])>
    ensures { Finds (λ b. b) (λ b rest. escaped_byte b ++ rest ≡ 92 ∷ text.now) result }
{
    match text {
        [b'\\', rest @ ..] => Some((b'\\', rest)),
        [b'0', b'0', high, low, rest @ ..] => match control_of(*high, *low) {
            Some(byte) => Some((byte, rest)),
            None => None,
        },
        _ => None,
    }
}

/// The first byte of an escaped text, and the text behind it.
fn first_escaped(text: &[u8]) -> Option<(u8, &[u8])>
    ensures { Finds (λ b. b) (λ b rest. escaped_byte b ++ rest ≡ text.now) result }
{
    match text {
        [b'\\', rest @ ..] => behind_backslash(rest),
        [byte, rest @ ..] => {
            if is_control(*byte) {
                None
            } else {
                Some((*byte, rest))
            }
        }
        [] => None,
    }
}

/// The bytes of which this is the escaped text.
pub(crate) fn unescape(alloc: Global, text: &[u8]) -> Result<Option<Vec<u8>>, AllocError>
    ensures { IfOk result (λ found. Knows (λ v. v.items) (λ bytes. escaped bytes ≡ text.now) found) }
{
    let mut bytes = Vec::new(alloc);
    let mut rest = text;
    while !rest.is_empty() {
        let Some((byte, behind)) = first_escaped(rest) else {
            return Ok(None);
        };
        bytes.push(byte)?;
        rest = behind;
    }
    Ok(Some(bytes))
}
