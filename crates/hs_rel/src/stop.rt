// Why rows can't be had.
use hs_base::PageNo;
use hs_values::EvalFault;
use std::alloc::{AllocError, AllocFailed};

/// Why the rows of a store can't be had.
#[derive(Clone, Copy, Debug, PartialEq, Eq)]
pub enum StopKind {
    /// A call of the disk failed.
    Disk,
    /// This page of the data file isn't there whole, or is no page.
    Damaged(PageNo),
}

/// Why a query, or a part of one, has no rows.
#[derive(Clone, Copy, Debug, PartialEq, Eq)]
pub enum EvalStop {
    /// The fault that the query has, or want of memory.
    Fault(EvalFault),
    /// Rows couldn't be had.
    Stop(StopKind),
}

impl From<AllocError> for EvalStop {
    ghost use Rattle.std.specs.Prelude.{◌≡◌};
    ghost use Rattle.hs_values.specs.declared.fault.EvalFault.TheVariants.{NoMemory};
    ghost use Rattle.hs_rel.specs.declared.stop.EvalStop.TheVariants.{Fault};

    ghost from_gives = { λ _ stop. stop ≡ Fault NoMemory };

    fn from(_: AllocError) -> Self {
        EvalStop::Fault(EvalFault::NoMemory)
    }
}

impl<T: Drop> From<AllocFailed<T>> for EvalStop {
    ghost use Rattle.std.specs.Prelude.{◌≡◌};
    ghost use Rattle.hs_values.specs.declared.fault.EvalFault.TheVariants.{NoMemory};
    ghost use Rattle.hs_rel.specs.declared.stop.EvalStop.TheVariants.{Fault};

    ghost from_gives = { λ _ stop. stop ≡ Fault NoMemory };

    fn from(_: AllocFailed<T>) -> Self {
        EvalStop::Fault(EvalFault::NoMemory)
    }
}

impl From<EvalFault> for EvalStop {
    ghost use Rattle.std.specs.Prelude.{◌≡◌};
    ghost use Rattle.hs_rel.specs.declared.stop.EvalStop.TheVariants.{Fault};

    ghost from_gives = { λ fault stop. stop ≡ Fault fault };

    fn from(fault: EvalFault) -> Self {
        EvalStop::Fault(fault)
    }
}
