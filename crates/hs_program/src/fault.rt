// Why a log can't be opened.

use hs_log::LogFault;
use hs_values::Name;
use std::alloc::AllocError;

/// Why a log can't be opened.
#[derive(Debug, PartialEq, Eq, Drop)]
pub enum OpenFault {
    /// A call on the files of the database failed.
    Disk,
    /// This group of the log is damaged, or its header where it is 0.
    Damaged(u64),
    /// What the log makes violates this constraint.
    Invalid(Name),
    /// Memory was refused.
    NoMemory,
}

impl From<AllocError> for OpenFault {
    ghost use Rattle.std.specs.Prelude.{◌≡◌};
    ghost use Rattle.hs_program.specs.declared.fault.OpenFault.TheVariants.{NoMemory};

    ghost from_gives = { λ _ fault. fault ≡ NoMemory };

    fn from(_: AllocError) -> Self {
        OpenFault::NoMemory
    }
}

impl From<LogFault> for OpenFault {
    ghost use Rattle.std.specs.Prelude.{◌≡◌};
    ghost use Rattle.hs_program.specs.Stop.{fault_of};

    ghost from_gives = { λ f fault. fault ≡ fault_of f };

    fn from(fault: LogFault) -> Self {
        match fault {
            LogFault::Disk => OpenFault::Disk,
            LogFault::Broken(number) => OpenFault::Damaged(number),
            LogFault::NoMemory => OpenFault::NoMemory,
        }
    }
}
