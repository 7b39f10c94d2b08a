// The number that a printed text stands for.
ghost use Rattle.std.specs.Prelude.{◌≡◌, ◌≢◌, ◌↔◌, ◌∷◌, ◌≤◌, List, ℕ, true, length, Some, IfSome, MatchOption};
ghost use Rattle.std.specs.Str.{all_ascii_digits};
ghost use Rattle.std.specs.Str.Parse.{digits_value};
ghost use Rattle.hs_values.specs.Decimal.{IsDecimal};
ghost use Rattle.hs_decimal.specs.Text.{text_of, unsigned};

use crate::printing::text;
use crate::reading::{digits_number, read};
use hs_values::{Dec, MOST_DIGITS};

/// The decimal of which [`print`](crate::print) makes this text, sign and scale included: the inverse of
/// printing, for every decimal, also for one of scale 38, which is printed in 39 digits, the first a 0.
/// `None` exactly where no decimal is printed so, as `1.`, `00`, `-0`, `+1` and ` 1`. Takes no memory.
pub fn read_printed(line: &str) -> Option<Dec>
    ensures lawful { IfSome result IsDecimal }
    ensures inverse { (a : Dec) → IsDecimal a → (result ≡ Some a) ↔ (text_of a ≡ line.now) }
{
    let likely = signed_number(line)?;
    if text(likely).as_str() == line {
        Some(likely)
    } else {
        None
    }
}

/// The only decimal that may be printed so.
fn signed_number(line: &str) -> Option<Dec>
    ensures lawful { IfSome result IsDecimal }
    ensures found { (a : Dec) → IsDecimal a → text_of a ≡ line.now → result ≡ Some a }
{
    match line.strip_prefix('-') {
        None => unsigned_number(line),
        Some(size) => {
            let size = unsigned_number(size)?;
            Some(Dec {
                units: -size.units,
                scale: size.scale,
            })
        }
    }
}

/// The only decimal without a sign that may be printed so.
fn unsigned_number(line: &str) -> Option<Dec>
    ensures lawful { IfSome result IsDecimal }
    ensures found { (size scale : ℕ) → IsDecimal (unsigned size scale) → text_of (unsigned size scale) ≡ line.now → result ≡ Some (unsigned size scale) }
{
    match behind_point(line) {
        None => read(line),
        Some(fraction) => below_one(fraction),
    }
}

/// What stands behind a 0 and a point, which the text begins with.
fn behind_point(line: &str) -> Option<&str>
    ensures { MatchOption result ((rest : List ℕ) → line.now ≢ 48 ∷ 46 ∷ rest) (λ rest. line.now ≡ 48 ∷ 46 ∷ rest.now) }
{
    match line.strip_prefix('0') {
        None => None,
        Some(rest) => rest.strip_prefix('.'),
    }
}

/// The number of these digits behind a 0 and a point.
fn below_one(fraction: &str) -> Option<Dec>
    ensures lawful { IfSome result IsDecimal }
    ensures found { length fraction.now ≤ 38 → all_ascii_digits fraction.now ≡ true → result ≡ Some (unsigned (digits_value 10 fraction.now) (length fraction.now)) }
{
    if fraction.len() > usize::from(MOST_DIGITS) {
        return None;
    }
    let size = digits_number(fraction.as_bytes())?;
    Some(Dec {
        units: size as i128,
        scale: fraction.len() as u8,
    })
}
