// Why a case has no answer.
use std::alloc::{AllocError, AllocFailed};
use std::num::ParseIntError;

/// Why a case has no answer.
#[derive(Clone, Copy, Debug, PartialEq, Eq)]
pub enum CaseFault {
    /// The line isn't written as the program's cases are.
    Unreadable,
    /// Memory was refused. No rule says when.
    NoMemory,
}

impl From<AllocError> for CaseFault {
    fn from(_: AllocError) -> CaseFault {
        CaseFault::NoMemory
    }
}

impl From<AllocFailed<u8>> for CaseFault {
    fn from(_: AllocFailed<u8>) -> CaseFault {
        CaseFault::NoMemory
    }
}

impl From<ParseIntError> for CaseFault {
    fn from(_: ParseIntError) -> CaseFault {
        CaseFault::Unreadable
    }
}
