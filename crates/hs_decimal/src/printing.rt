// The text of a decimal.
ghost use Rattle.std.specs.Prelude.{◌≡◌, ◌+◌, ◌^◌, ◌<◌, ◌≤◌, ◌++◌, [], OnOk, OnErr, IfErr, Some};
ghost use Rattle.arrayvec.specs.ArrayString.{array_string_len};
ghost use Rattle.hs_values.specs.Decimal.{IsDecimal};
ghost use Rattle.hs_values.specs.declared.fault.EvalFault.TheVariants.{NoMemory};
ghost use Rattle.hs_decimal.specs.Text.{text_of, read_of, sign_of, fraction_of, padded, IsReadable};

use arrayvec::ArrayString;
use hs_values::{Chars, Dec, EvalFault, ten_to};
use itoa::Buffer;

/// The most bytes of a decimal's text: a sign, 39 digits where all 38 stand behind the point, and
/// the point.
const WIDEST: usize = 41;

/// Appends a decimal's text to `out`: `-` in front of a number below zero, at least one digit, and
/// for a scale above 0 a point and as many digits as the scale says. After an `Err`, which is always
/// `NoMemory`, nothing is changed.
///
/// What is printed of a number without a sign, in at most 38 digits, [`read`](crate::read) gives
/// back, with its scale; [`read_printed`](crate::read_printed) gives back every number.
#[tactic(auto, using(crate::proofs::ReadBack::read_back))]
pub fn print(a: Dec, out: &mut Chars) -> Result<(), EvalFault>
    requires { IsDecimal a }
    ensures ok { OnOk result (out.new ≡ out.old ++ text_of a) }
    ensures err { OnErr result (out.new ≡ out.old) }
    ensures only_memory { IfErr result (λ fault. fault ≡ NoMemory) }
    ensures read_back { IsReadable a → read_of (text_of a) ≡ Some a }
{
    out.push_text(text(a).as_str())?;
    Ok(())
}

/// A decimal's text.
pub(crate) fn text(a: Dec) -> ArrayString<WIDEST>
    requires { IsDecimal a }
    ensures { result.bytes ≡ text_of a }
{
    let size = a.units.unsigned_abs();
    let one = ten_to(a.scale).unsigned_abs();
    let mut text = ArrayString::new();
    push_sign(a.units, &mut text);
    text.push_str(Buffer::new().format(size / one));
    push_fraction(size % one, a.scale, &mut text);
    text
}

/// Appends the sign of a number below zero.
fn push_sign(units: i128, text: &mut ArrayString<WIDEST>)
    requires { array_string_len text.old < WIDEST }
    ensures { text.new.bytes ≡ text.old.bytes ++ sign_of units }
{
    if units < 0 {
        text.push('-');
    }
}

/// Appends a point and the digits behind it, of which there are `scale`; nothing at a scale of 0.
fn push_fraction(fraction: u128, scale: u8, text: &mut ArrayString<WIDEST>)
    requires room { array_string_len text.old + 1 + scale ≤ WIDEST }
    requires fits { fraction < 10 ^ scale }
    requires places { scale ≤ 38 }
    ensures { text.new.bytes ≡ text.old.bytes ++ fraction_of scale fraction }
{
    if scale > 0 {
        text.push('.');
        push_padded(fraction, usize::from(scale), text);
    }
}

/// Appends a number's digits, with zeros in front of them to fill the places.
fn push_padded(number: u128, places: usize, text: &mut ArrayString<WIDEST>)
    requires room { array_string_len text.old + places ≤ WIDEST }
    requires fits { number < 10 ^ places }
    requires some { 0 < places }
    ensures { text.new.bytes ≡ text.old.bytes ++ padded places number }
{
    let mut buffer = Buffer::new();
    let digits = buffer.format(number);
    for _ in digits.len()..places {
        text.push('0');
    }
    text.push_str(digits);
}
