// What statements want, keep and read, by the kind of a model.
ghost use Rattle.std.specs.Prelude.{◌≡◌, IfOk};
ghost use Rattle.hs_claims.specs.Wants.{wants_of, keeps_of, reads_start_of};

use hs_base::NoMemory;
use hs_claims::{Claims, ControlKind, Footprint, Level, TxModel};
use hs_locks::Locks;
use hs_mvcc::Mvcc;
use hs_mvlocks::MvLocks;
use std::alloc::Global;

/// The claims that a statement with this footprint wants. An `Err` is want of memory.
pub fn wants(
    alloc: Global,
    kind: ControlKind,
    level: Level,
    read_only: bool,
    footprint: &Footprint,
) -> Result<Claims, NoMemory>
    ensures { IfOk result (λ claims. claims ≡ wants_of kind level read_only footprint.now) }
{
    match kind {
        ControlKind::Locks => Locks::wants(alloc, level, read_only, footprint),
        ControlKind::MvLocks => MvLocks::wants(alloc, level, read_only, footprint),
        ControlKind::Mvcc => Mvcc::wants(alloc, level, read_only, footprint),
    }
}

/// The claims that it keeps until its transaction ends. An `Err` is want of memory.
pub fn keeps(
    alloc: Global,
    kind: ControlKind,
    level: Level,
    read_only: bool,
    footprint: &Footprint,
) -> Result<Claims, NoMemory>
    ensures { IfOk result (λ claims. claims ≡ keeps_of kind level read_only footprint.now) }
{
    match kind {
        ControlKind::Locks => Locks::keeps(alloc, level, read_only, footprint),
        ControlKind::MvLocks => MvLocks::keeps(alloc, level, read_only, footprint),
        ControlKind::Mvcc => Mvcc::keeps(alloc, level, read_only, footprint),
    }
}

/// Whether it reads the state at its transaction's start, and not the present one.
pub fn reads_start(kind: ControlKind, level: Level, read_only: bool) -> bool
    ensures { result ≡ reads_start_of kind level read_only }
{
    match kind {
        ControlKind::Locks => Locks::reads_start(level, read_only),
        ControlKind::MvLocks => MvLocks::reads_start(level, read_only),
        ControlKind::Mvcc => Mvcc::reads_start(level, read_only),
    }
}
