// The depth of a tree from those of its parts.
ghost use Rattle.std.specs.Prelude.{◌≡◌, ℕ, MatchResult, max};
ghost use Rattle.hs_builder.specs.Steps.{over, within, beyond};
ghost use Rattle.hs_builder.specs.declared.build_fault.BuildFault.TheVariants.{Depth};

use crate::build_fault::BuildFault;

/// The greatest depth of a tree.
pub const GREATEST_DEPTH: u32 = 256;

/// The greater of two depths.
pub fn deepest(a: u32, b: u32) -> u32
    ensures { result ≡ max a b }
{
    a.max(b)
}

/// One deeper than two depths.
#[tactic(auto, using(crate::proofs::Deepening::too_deep))]
pub fn deeper(a: u32, b: u32) -> Result<u32, BuildFault>
    ensures { MatchResult result (λ d. over a b ≡ within d) (λ e. (e ≡ Depth) × ((d : ℕ) × (over a b ≡ beyond d))) }
{
    let depth = deepest(a, b);
    if depth >= GREATEST_DEPTH {
        Err(BuildFault::Depth)
    } else {
        Ok(depth + 1)
    }
}
