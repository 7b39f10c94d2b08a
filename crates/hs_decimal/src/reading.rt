// The number that a text spells.
ghost use Rattle.std.specs.Prelude.{◌≡◌, ◌≤◌, ◌↔◌, length, Some, IfSome, true, SomeIff};
ghost use Rattle.std.specs.Str.{all_ascii_digits};
ghost use Rattle.std.specs.Str.Parse.{digits_value};
ghost use Rattle.hs_values.specs.Decimal.{IsDecimal};
ghost use Rattle.hs_decimal.specs.Text.{Spells, number_of, read_of};

use hs_values::{Dec, MOST_DIGITS, ten_to};

/// The number that a text spells, an unsigned exact numeric literal: digits, or digits with one point
/// and at least one digit in front of it and behind it. There are at most 38 digits in all, zeros at
/// the beginning included. The number's scale is how many digits stand behind the point. `None`
/// exactly where the text is no such literal, so also where there is a sign.
#[tactic(auto, unfolding(crate::specs::Text::read_of))]
pub fn read(text: &str) -> Option<Dec>
    ensures value { result ≡ read_of text.now }
    ensures spelled { (d : Dec) → (result ≡ Some d) ↔ Spells text.now d }
    ensures lawful { IfSome result IsDecimal }
{
    match text.split_once('.') {
        None => number(text, ""),
        Some((digits, fraction)) => {
            if fraction.is_empty() {
                None
            } else {
                number(digits, fraction)
            }
        }
    }
}

/// The number of these digits and of those behind its point.
fn number(digits: &str, fraction: &str) -> Option<Dec>
    ensures value { result ≡ number_of digits.now fraction.now }
    ensures lawful { IfSome result IsDecimal }
{
    let most = usize::from(MOST_DIGITS);
    if digits.is_empty() || digits.len() > most || fraction.len() > most - digits.len() {
        return None;
    }
    let before = digits_number(digits.as_bytes())?;
    let behind = digits_number(fraction.as_bytes())?;
    let scale = fraction.len() as u8;
    let units = before * ten_to(scale).unsigned_abs() + behind;
    Some(Dec {
        units: units as i128,
        scale,
    })
}

/// The number that digits write. `None` exactly where there is another byte among them.
pub(crate) fn digits_number(digits: &[u8]) -> Option<u128>
    requires { length digits.now ≤ 38 }
    ensures { SomeIff result (all_ascii_digits digits.now ≡ true) (digits_value 10 digits.now) }
{
    let mut number = 0;
    for byte in digits {
        if !byte.is_ascii_digit() {
            return None;
        }
        number = 10 * number + u128::from(*byte - b'0');
    }
    Some(number)
}
