// Sums, differences and products.
ghost use Rattle.std.specs.Prelude.{◌≡◌, IfOk};
ghost use Rattle.hs_values.specs.Decimal.{IsDecimal, rescaled_of};
ghost use Rattle.hs_decimal.specs.Arithmetic.{sum_of, difference_of, product_of};

use hs_values::{Dec, EvalFault, checked_decimal, rescale};

/// The sum, at the greater of the two scales, as the SQL standard has it. Each operand is first
/// given that scale: `Range` exactly where an operand at that scale, or the sum, has more than 38
/// digits, so also where the sum itself would have fitted.
#[tactic(auto, using(hs_values::proofs::DecimalWidths::too_wide), unfolding(crate::specs::Arithmetic::sum_of))]
pub fn add(a: Dec, b: Dec) -> Result<Dec, EvalFault>
    requires left { IsDecimal a }
    requires right { IsDecimal b }
    ensures value { result ≡ sum_of a b }
    ensures lawful { IfOk result IsDecimal }
{
    let scale = a.scale.max(b.scale);
    let x = raised(a, scale)?;
    let y = raised(b, scale)?;
    match x.units.checked_add(y.units) {
        Some(units) => checked_decimal(units, scale),
        None => Err(EvalFault::Range),
    }
}

/// The difference, at the greater of the two scales, as the SQL standard has it. Each operand is
/// first given that scale: `Range` exactly where an operand at that scale, or the difference, has
/// more than 38 digits.
#[tactic(auto, using(hs_values::proofs::DecimalWidths::too_wide), unfolding(crate::specs::Arithmetic::difference_of))]
pub fn sub(a: Dec, b: Dec) -> Result<Dec, EvalFault>
    requires left { IsDecimal a }
    requires right { IsDecimal b }
    ensures value { result ≡ difference_of a b }
    ensures lawful { IfOk result IsDecimal }
{
    let scale = a.scale.max(b.scale);
    let x = raised(a, scale)?;
    let y = raised(b, scale)?;
    match x.units.checked_sub(y.units) {
        Some(units) => checked_decimal(units, scale),
        None => Err(EvalFault::Range),
    }
}

/// The product, at the sum of the two scales, as the SQL standard has it. `Range` exactly where that
/// scale is above 38, also for a product of zero, or the product has more than 38 digits.
#[tactic(auto, using(hs_values::proofs::DecimalWidths::too_wide), unfolding(crate::specs::Arithmetic::product_of))]
pub fn mul(a: Dec, b: Dec) -> Result<Dec, EvalFault>
    requires left { IsDecimal a }
    requires right { IsDecimal b }
    ensures value { result ≡ product_of a b }
    ensures lawful { IfOk result IsDecimal }
{
    match a.units.checked_mul(b.units) {
        Some(units) => checked_decimal(units, a.scale + b.scale),
        None => Err(EvalFault::Range),
    }
}

/// The same number at another scale, at once where it has that scale already.
#[tactic(auto, using(crate::proofs::Raised::unmoved))]
fn raised(a: Dec, scale: u8) -> Result<Dec, EvalFault>
    requires { IsDecimal a }
    ensures value { result ≡ rescaled_of a scale }
    ensures lawful { IfOk result IsDecimal }
{
    if scale == a.scale {
        return Ok(a);
    }
    rescale(a, scale)
}
