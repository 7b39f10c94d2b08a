// Faults of the log.
use hs_gate::GateFault;

/// Why a call on the log failed.
#[derive(Clone, Copy, Debug, PartialEq, Eq)]
pub enum LogFault {
    /// The device failed. It is answered only where the count of its faults rose.
    Disk,
    /// The log is damaged: the text of this number, counted from 1, is the first that isn't whole. At 0 the log was born,
    /// and isn't open with epoch 1.
    Broken(u64),
    /// Memory was refused, or a place in the file doesn't fit in 64 bits. No rule says when memory is refused.
    NoMemory,
}

impl From<GateFault> for LogFault {
    ghost use Rattle.std.specs.Prelude.{◌≡◌};
    ghost use Rattle.hs_log.specs.Faults.{log_fault_of};

    ghost from_gives = { λ f fault. fault ≡ log_fault_of f };

    fn from(fault: GateFault) -> Self {
        match fault {
            GateFault::Disk => LogFault::Disk,
            GateFault::Broken(number) => LogFault::Broken(number),
            GateFault::NoMemory => LogFault::NoMemory,
        }
    }
}
