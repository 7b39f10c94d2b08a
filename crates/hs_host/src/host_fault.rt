// Faults of a host.

/// Why a call of a host failed.
#[derive(Clone, Copy, Debug, PartialEq, Eq)]
pub enum HostFault {
    /// The device failed. It is answered only where the count of that device's faults rose.
    Fault,
    /// Memory was refused. No rule says when, and no count rises.
    NoMemory,
}
