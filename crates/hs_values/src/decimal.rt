// Decimals of at most 38 digits, and the same number at another scale.
ghost use Rattle.std.specs.Prelude.{◌≡◌, ◌^◌, ◌≤◌, ◌<ℤ◌, pos, int_div, IfOk};
ghost use Rattle.hs_values.specs.Decimal.{IsDecimal, checked_of, rescaled_of};

use crate::fault::EvalFault;
use crate::value::Dec;

/// The most digits that a decimal's units have, and the greatest scale.
pub const MOST_DIGITS: u8 = 38;

/// The least number of more than 38 digits.
const TOO_WIDE: u128 = 100_000_000_000_000_000_000_000_000_000_000_000_000;

/// Ten to the power `exponent`, for exponents up to 38.
pub fn ten_to(exponent: u8) -> i128
    requires { exponent ≤ 38 }
    ensures value { result ≡ pos (10 ^ exponent) }
    ensures positive { pos 0 <ℤ result }
{
    10i128.pow(u32::from(exponent))
}

/// The decimal `units / 10^scale`. `Range` exactly where the units have more than 38 digits or the
/// scale is above 38.
#[tactic(auto, unfolding(crate::specs::Decimal::checked_of))]
pub fn checked_decimal(units: i128, scale: u8) -> Result<Dec, EvalFault>
    ensures value { result ≡ checked_of units scale }
    ensures lawful { IfOk result IsDecimal }
{
    if units.unsigned_abs() < TOO_WIDE && scale <= MOST_DIGITS {
        Ok(Dec { units, scale })
    } else {
        Err(EvalFault::Range)
    }
}

/// The units without so many digits at their end.
#[tactic(auto, using(crate::proofs::DecimalWidths::all_cut))]
pub(crate) fn cut(units: i128, digits: u8) -> i128
    ensures { result ≡ int_div units (pos (10 ^ digits)) }
{
    if digits > MOST_DIGITS {
        return 0;
    }
    units / ten_to(digits)
}

/// The same number at another scale. At a greater scale the number is the same; at a smaller one
/// the digits that have no place there are cut off, which is toward zero. `Range` exactly where the
/// units at the new scale have more than 38 digits, or that scale is above 38.
#[tactic(auto, using(crate::proofs::DecimalWidths::too_wide, crate::proofs::DecimalWidths::above), unfolding(crate::specs::Decimal::rescaled_of, crate::specs::Decimal::units_at))]
pub fn rescale(a: Dec, scale: u8) -> Result<Dec, EvalFault>
    ensures value { result ≡ rescaled_of a scale }
    ensures lawful { IfOk result IsDecimal }
{
    if scale > MOST_DIGITS {
        return Err(EvalFault::Range);
    }
    if scale < a.scale {
        return checked_decimal(cut(a.units, a.scale - scale), scale);
    }
    match a.units.checked_mul(ten_to(scale - a.scale)) {
        Some(units) => checked_decimal(units, scale),
        None => Err(EvalFault::Range),
    }
}
