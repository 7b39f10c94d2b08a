// Why there is no next item.
use hs_host::HostFault;
use std::alloc::{AllocError, AllocFailed};

/// Why there is no next item. A reader keeps a fault that it answered.
#[derive(Clone, Copy, Debug, PartialEq, Eq)]
pub enum InputFault {
    /// A read of the source failed.
    Fault,
    /// The item isn't whole, up to its `;`, within the limit of bytes, and the input has more.
    TooLong,
    /// Memory was refused. No rule says when.
    NoMemory,
}

impl From<AllocError> for InputFault {
    ghost use Rattle.std.specs.Prelude.{◌≡◌};
    ghost use Rattle.hs_entries.specs.declared.input_fault.InputFault.TheVariants.{NoMemory};

    ghost from_gives = { λ _ fault. fault ≡ NoMemory };

    fn from(_: AllocError) -> Self {
        InputFault::NoMemory
    }
}

impl<T: Drop> From<AllocFailed<T>> for InputFault {
    ghost use Rattle.std.specs.Prelude.{◌≡◌};
    ghost use Rattle.hs_entries.specs.declared.input_fault.InputFault.TheVariants.{NoMemory};

    ghost from_gives = { λ _ fault. fault ≡ NoMemory };

    fn from(_: AllocFailed<T>) -> Self {
        InputFault::NoMemory
    }
}

impl From<HostFault> for InputFault {
    ghost use Rattle.std.specs.Prelude.{◌≡◌};
    ghost use Rattle.hs_entries.specs.Reader.{input_fault_of};

    ghost from_gives = { λ f fault. fault ≡ input_fault_of f };

    fn from(fault: HostFault) -> Self {
        match fault {
            HostFault::Fault => InputFault::Fault,
            HostFault::NoMemory => InputFault::NoMemory,
        }
    }
}
