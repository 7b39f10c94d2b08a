// Faults of gated files.
use hs_host::HostFault;
use std::alloc::AllocError;

/// Why a call on a gated file failed.
#[derive(Clone, Copy, Debug, PartialEq, Eq)]
pub enum GateFault {
    /// The device failed. It is answered only where the count of its faults rose.
    Disk,
    /// A group isn't whole. `Gated::read` gives the number, from 1, of the first such group; `Gated::part` the place, in
    /// bytes, at which no whole group stands.
    Broken(u64),
    /// Memory was refused, or a place in the file doesn't fit in 64 bits. No rule says when memory is refused.
    NoMemory,
}

impl From<AllocError> for GateFault {
    ghost use Rattle.std.specs.Prelude.{◌≡◌};
    ghost use Rattle.hs_gate.specs.declared.gate_fault.GateFault.TheVariants.{NoMemory};

    ghost from_gives = { λ _ fault. fault ≡ NoMemory };

    fn from(_: AllocError) -> Self {
        GateFault::NoMemory
    }
}

impl From<HostFault> for GateFault {
    ghost use Rattle.std.specs.Prelude.{◌≡◌};
    ghost use Rattle.hs_gate.specs.Faults.{gate_fault_of};

    ghost from_gives = { λ f fault. fault ≡ gate_fault_of f };

    fn from(fault: HostFault) -> Self {
        match fault {
            HostFault::Fault => GateFault::Disk,
            HostFault::NoMemory => GateFault::NoMemory,
        }
    }
}
