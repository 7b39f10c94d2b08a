// What is wrong with files, and why they weren't read.
use hs_host::HostFault;
use std::alloc::AllocError;

/// What is wrong with the files of a database. Groups are counted from 1.
#[derive(Clone, Copy, Debug, PartialEq, Eq)]
pub enum Damage {
    /// It can't be told which slot is the current one: a slot, the log or the backup has no whole header; no slot is open, or
    /// both are with the same epoch; or the log or the backup is open with a greater epoch than the current slot.
    NoScript,
    /// This group of the current slot is the first that is broken or missing, or that may not stand there.
    Script(u64),
    /// This group of the backup is the first of these. At 0 the backup is empty, and a slot or the page file isn't.
    Backup(u64),
    /// This group of the log is the first of these. At 0 the log is empty, and another file isn't.
    Log(u64),
}

/// Why files weren't read.
#[derive(Clone, Copy, Debug, PartialEq, Eq)]
pub enum Stop {
    /// They are damaged, and this is the first damage.
    Damaged(Damage),
    /// The device failed. It is answered only where the count of its faults rose.
    Disk,
    /// Memory was refused. No rule says when.
    NoMemory,
}

impl From<AllocError> for Stop {
    ghost use Rattle.std.specs.Prelude.{◌≡◌};
    ghost use Rattle.hs_damages.specs.declared.damage.Stop.TheVariants.{NoMemory};

    ghost from_gives = { λ _ stop. stop ≡ NoMemory };

    fn from(_: AllocError) -> Self {
        Stop::NoMemory
    }
}

impl From<HostFault> for Stop {
    ghost use Rattle.std.specs.Prelude.{◌≡◌};
    ghost use Rattle.hs_damages.specs.Stops.{stop_of};

    ghost from_gives = { λ f stop. stop ≡ stop_of f };

    fn from(fault: HostFault) -> Self {
        match fault {
            HostFault::Fault => Stop::Disk,
            HostFault::NoMemory => Stop::NoMemory,
        }
    }
}
