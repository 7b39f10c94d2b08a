// Numbers of a statement that are counts.
ghost use Rattle.std.specs.Prelude.{◌≡◌, MatchResult, pos};
ghost use Rattle.hs_builder.specs.Steps.{natural};
ghost use Rattle.hs_builder.specs.declared.build_fault.BuildFault.TheVariants.{NoMemory};

use crate::build_fault::BuildFault;

/// A number that no sign stands before. Where it doesn't fit, what called for it is no derivation's, and the answer is
/// that of want of memory.
pub fn wide_natural(units: i128) -> Result<u128, BuildFault>
    ensures { MatchResult result (λ n. n ≡ natural units) (λ e. e ≡ NoMemory) }
{
    match u128::try_from(units) {
        Ok(n) => Ok(n),
        Err(_) => Err(BuildFault::NoMemory),
    }
}

pub fn short_natural(units: i128) -> Result<u16, BuildFault>
    ensures { MatchResult result (λ n. n ≡ natural units) (λ e. e ≡ NoMemory) }
{
    match u16::try_from(units) {
        Ok(n) => Ok(n),
        Err(_) => Err(BuildFault::NoMemory),
    }
}

pub fn small_natural(units: i128) -> Result<u8, BuildFault>
    ensures { MatchResult result (λ n. n ≡ natural units) (λ e. e ≡ NoMemory) }
{
    match u8::try_from(units) {
        Ok(n) => Ok(n),
        Err(_) => Err(BuildFault::NoMemory),
    }
}
