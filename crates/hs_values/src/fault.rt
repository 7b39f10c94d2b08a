// Why an expression has no value.
ghost use Rattle.std.specs.Prelude.{◌≡◌};
ghost use Rattle.hs_values.specs.Fault.{number_of, lesser};

use std::alloc::{AllocError, AllocFailed};

/// Why an expression has no value. Of several faults the least counts, in this order.
#[derive(Clone, Copy, Debug, PartialEq, Eq, PartialOrd, Ord)]
pub enum EvalFault {
    /// A number was divided by zero.
    DivisionByZero,
    /// A number, or a date, is outside its range.
    Range,
    /// A text has more characters than its column.
    TooLong,
    /// A text is no date or timestamp.
    BadDate,
    /// A subquery that stands for one value has two rows or more.
    MoreThanOne,
    /// Memory was refused. No rule says when.
    NoMemory,
}

impl EvalFault {
    /// The fault's number, from 1 for `DivisionByZero` to 5 for `MoreThanOne`; 6 for `NoMemory`.
    pub fn number(self) -> u8
        ensures { result ≡ number_of self }
    {
        match self {
            EvalFault::DivisionByZero => 1,
            EvalFault::Range => 2,
            EvalFault::TooLong => 3,
            EvalFault::BadDate => 4,
            EvalFault::MoreThanOne => 5,
            EvalFault::NoMemory => 6,
        }
    }

    /// Of two faults the one that counts, which is that of the lesser number.
    pub fn lesser(self, other: EvalFault) -> EvalFault
        ensures { result ≡ lesser self other }
    {
        if self.number() <= other.number() {
            self
        } else {
            other
        }
    }
}

impl From<AllocError> for EvalFault {
    ghost use Rattle.std.specs.Prelude.{◌≡◌};
    ghost use Rattle.hs_values.specs.declared.fault.EvalFault.TheVariants.{NoMemory};

    ghost from_gives = { λ _ fault. fault ≡ NoMemory };

    fn from(_: AllocError) -> Self {
        EvalFault::NoMemory
    }
}

impl<T: Drop> From<AllocFailed<T>> for EvalFault {
    ghost use Rattle.std.specs.Prelude.{◌≡◌};
    ghost use Rattle.hs_values.specs.declared.fault.EvalFault.TheVariants.{NoMemory};

    ghost from_gives = { λ _ fault. fault ≡ NoMemory };

    fn from(_: AllocFailed<T>) -> Self {
        EvalFault::NoMemory
    }
}
