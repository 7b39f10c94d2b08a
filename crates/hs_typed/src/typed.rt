// Bound expressions with their kinds, and the rules that one may break by itself.
use hs_base::NoMemory;
use hs_plan::{Expr, Kind};
use std::alloc::AllocError;

/// A bound expression and the kind of its values.
#[derive(Drop)]
pub struct Typed {
    pub tree: Expr,
    pub kind: Kind,
}

/// What an expression breaks by itself, its parts being right.
#[derive(Clone, Copy, Debug, PartialEq, Eq)]
pub enum RuleFault {
    /// A rule of types: operands of kinds that don't go there, or another number of them.
    Types,
    /// A query has another number of columns than one.
    Count,
    /// Memory was refused. No rule says when.
    NoMemory,
}

impl From<AllocError> for RuleFault {
    ghost use Rattle.std.specs.Prelude.{◌≡◌};
    ghost use Rattle.hs_typed.specs.declared.typed.RuleFault.TheVariants.{NoMemory};

    ghost from_gives = { λ _ fault. fault ≡ NoMemory };

    fn from(_: AllocError) -> Self {
        RuleFault::NoMemory
    }
}

impl From<NoMemory> for RuleFault {
    ghost use Rattle.std.specs.Prelude.{◌≡◌};
    ghost use Rattle.hs_typed.specs.declared.typed.RuleFault.TheVariants as fault;

    ghost from_gives = { λ _ given. given ≡ fault.NoMemory };

    fn from(_: NoMemory) -> Self {
        RuleFault::NoMemory
    }
}
