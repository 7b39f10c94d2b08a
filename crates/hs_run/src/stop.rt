// Why a run stops before its end.

use hs_log::LogFault;
use std::alloc::AllocError;

/// Why a run stops before its end.
#[derive(Clone, Copy, Debug, PartialEq, Eq)]
pub enum Stop {
    /// A read of the input failed.
    Input,
    /// A write of the output failed, or took nothing.
    Output,
    /// A call on the files of the database failed.
    Disk,
    /// Memory was refused. No rule says when.
    NoMemory,
    /// The input goes on beyond what is used of it.
    TooLong,
}

impl From<AllocError> for Stop {
    ghost use Rattle.std.specs.Prelude.{◌≡◌};
    ghost use Rattle.hs_run.specs.declared.stop.Stop.TheVariants.{NoMemory};

    ghost from_gives = { λ _ stop. stop ≡ NoMemory };

    fn from(_: AllocError) -> Self {
        Stop::NoMemory
    }
}

impl From<LogFault> for Stop {
    ghost use Rattle.std.specs.Prelude.{◌≡◌};
    ghost use Rattle.hs_run.specs.Stop.{stop_of};

    ghost from_gives = { λ f stop. stop ≡ stop_of f };

    // A log that is written on is never found broken.
    fn from(fault: LogFault) -> Self {
        match fault {
            LogFault::Disk => Stop::Disk,
            LogFault::Broken(_) => Stop::Disk,
            LogFault::NoMemory => Stop::NoMemory,
        }
    }
}
