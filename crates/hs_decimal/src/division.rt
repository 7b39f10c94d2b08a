// Quotients, by long division.
ghost use Rattle.std.specs.Prelude.{◌≡◌, ◌+◌, ◌*◌, ◌/◌, ◌^◌, ◌<◌, ◌*ℤ◌, pos, unsigned_abs, int_div, SomeIff, IfOk, Err, ◌↔◌};
ghost use Rattle.hs_values.specs.Decimal.{IsDecimal};
ghost use Rattle.hs_values.specs.declared.fault.EvalFault.TheVariants.{DivisionByZero};
ghost use Rattle.hs_decimal.specs.Arithmetic.{quotient_of};
ghost use Rattle.hs_decimal.specs.Sign.{is_below_zero, with_signs};

use hs_values::{Dec, EvalFault, checked_decimal};

/// The least number of 38 digits: a quotient that has reached it has no room for another digit.
const FULL: u128 = 10_000_000_000_000_000_000_000_000_000_000_000_000;

/// The quotient, at the greater of the two scales, cut toward zero and never rounded: 1.00 by 3 is
/// 0.33. The SQL standard leaves a quotient's scale to the implementation. `DivisionByZero` exactly
/// where `b` is zero; else `Range` exactly where the quotient has more than 38 digits, however many
/// the dividend has at the scale that it needs.
#[tactic(auto, unfolding(crate::specs::Arithmetic::quotient_of, hs_values::specs::Decimal::checked_of))]
pub fn div(a: Dec, b: Dec) -> Result<Dec, EvalFault>
    requires left { IsDecimal a }
    requires right { IsDecimal b }
    ensures value { result ≡ quotient_of a b }
    ensures by_zero { (result ≡ Err DivisionByZero) ↔ (b.units ≡ pos 0) }
    ensures lawful { IfOk result IsDecimal }
{
    if b.units == 0 {
        return Err(EvalFault::DivisionByZero);
    }
    let scale = a.scale.max(b.scale);
    match cut_quotient(a.units, b.units, scale + b.scale - a.scale) {
        Some(units) => checked_decimal(units, scale),
        None => Err(EvalFault::Range),
    }
}

/// `a` with so many zeros behind it, divided by `b` and cut toward zero. `None` exactly where this
/// has more than 38 digits.
#[tactic(auto, using(crate::proofs::Signs::by_size_back, crate::proofs::Signs::size_of_quotient))]
fn cut_quotient(a: i128, b: i128, zeros: u8) -> Option<i128>
    requires dividend { unsigned_abs a < 10 ^ 38 }
    requires divisor { unsigned_abs b < 10 ^ 38 }
    requires nonzero { 0 < unsigned_abs b }
    ensures { SomeIff result (unsigned_abs (int_div (a *ℤ pos (10 ^ zeros)) b) < 10 ^ 38) (int_div (a *ℤ pos (10 ^ zeros)) b) }
{
    let size = quotient(a.unsigned_abs(), b.unsigned_abs(), zeros)?;
    Some(signed_quotient(size, a, b))
}

/// The quotient of two numbers, from its size.
fn signed_quotient(size: u128, a: i128, b: i128) -> i128
    requires { size < 10 ^ 38 }
    ensures { result ≡ with_signs (is_below_zero a) (is_below_zero b) size }
{
    let units = size as i128;
    match (below_zero(a), below_zero(b)) {
        (false, false) => units,
        (false, true) => -units,
        (true, false) => -units,
        (true, true) => units,
    }
}

fn below_zero(n: i128) -> bool
    ensures { result ≡ is_below_zero n }
{
    n < 0
}

/// `n` with so many zeros behind it, divided. `None` exactly where this has more than 38 digits.
///
/// Each zero brings one digit of the quotient, from the remainder so far, so that no step needs
/// more than 128 bits however wide the dividend becomes.
fn quotient(n: u128, divisor: u128, zeros: u8) -> Option<u128>
    requires nonzero { 0 < divisor }
    requires small { divisor < 10 ^ 38 }
    requires dividend { n < 10 ^ 38 }
    ensures { SomeIff result (n * 10 ^ zeros / divisor < 10 ^ 38) (n * 10 ^ zeros / divisor) }
{
    let mut whole = n / divisor;
    let mut rest = n % divisor;
    for _place in 0..zeros {
        if whole >= FULL {
            return None;
        }
        let (digit, left) = next_digit(rest, divisor);
        whole = 10 * whole + digit;
        rest = left;
    }
    Some(whole)
}

/// Ten times a remainder, divided: a digit of the quotient, and the remainder behind it.
fn next_digit(rest: u128, divisor: u128) -> (u128, u128)
    requires below { rest < divisor }
    requires small { divisor < 10 ^ 38 }
    ensures whole { result.0 * divisor + result.1 ≡ 10 * rest }
    ensures below { result.1 < divisor }
    ensures digit { result.0 < 10 }
{
    let (digit, twofold) = doubled(0, rest, divisor);
    let (digit, fourfold) = doubled(digit, twofold, divisor);
    let fivefold = fourfold + rest;
    if fivefold < divisor {
        doubled(digit, fivefold, divisor)
    } else {
        doubled(digit + 1, fivefold - divisor, divisor)
    }
}

/// Twice a number that is `digit` divisors and a remainder, as divisors and a remainder again.
fn doubled(digit: u128, rest: u128, divisor: u128) -> (u128, u128)
    requires below { rest < divisor }
    requires small { divisor < 10 ^ 38 }
    requires few { digit < 10 }
    ensures whole { result.0 * divisor + result.1 ≡ 2 * (digit * divisor + rest) }
    ensures below { result.1 < divisor }
{
    let rest = rest + rest;
    if rest < divisor {
        (digit + digit, rest)
    } else {
        (digit + digit + 1, rest - divisor)
    }
}
