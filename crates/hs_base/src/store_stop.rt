// Why a store can't go on.
use crate::no_memory::NoMemory;
use crate::numbers::PageNo;
use std::alloc::{AllocError, AllocFailed};

/// Why a store of rows can't go on.
#[derive(Clone, Copy, Debug, PartialEq, Eq)]
pub enum StoreStop {
    /// A call of the disk failed.
    Disk,
    /// This page of the data file isn't there whole, or is no page.
    Damaged(PageNo),
    /// Memory was refused. No rule says when.
    NoMemory,
}

impl From<NoMemory> for StoreStop {
    ghost use Rattle.std.specs.Prelude.{◌≡◌};
    ghost use Rattle.hs_base.specs.declared.store_stop.StoreStop.TheVariants.{NoMemory};

    ghost from_gives = { λ _ stop. stop ≡ NoMemory };

    fn from(_: NoMemory) -> Self {
        StoreStop::NoMemory
    }
}

impl From<AllocError> for StoreStop {
    ghost use Rattle.std.specs.Prelude.{◌≡◌};
    ghost use Rattle.hs_base.specs.declared.store_stop.StoreStop.TheVariants.{NoMemory};

    ghost from_gives = { λ _ stop. stop ≡ NoMemory };

    fn from(_: AllocError) -> Self {
        StoreStop::NoMemory
    }
}

impl<T: Drop> From<AllocFailed<T>> for StoreStop {
    ghost use Rattle.std.specs.Prelude.{◌≡◌};
    ghost use Rattle.hs_base.specs.declared.store_stop.StoreStop.TheVariants.{NoMemory};

    ghost from_gives = { λ _ stop. stop ≡ NoMemory };

    fn from(_: AllocFailed<T>) -> Self {
        StoreStop::NoMemory
    }
}
