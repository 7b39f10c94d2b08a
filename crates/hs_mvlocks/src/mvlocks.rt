// The model MVLOCKS.
use hs_base::NoMemory;
use hs_claims::{Claims, ControlKind, Footprint, Level, TxModel, catalog_claims};
use hs_locks::{table_keeps, table_wants};
use std::alloc::Global;

/// The model MVLOCKS: a statement of a transaction that may write claims tables as under LOCKS and reads the present
/// state. One of a read-only transaction claims no table, and reads the state at its transaction's start.
#[derive(Clone, Copy, Debug)]
pub struct MvLocks;

impl TxModel for MvLocks {
    ghost use Rattle.hs_claims.specs.declared.model.ControlKind.TheVariants as kind;
    ghost use Rattle.hs_mvlocks.specs.Laws.{mvlocks_kept, mvlocks_cover, mvlocks_hold};

    ghost model = { kind.MvLocks };

    fn kind() -> ControlKind {
        ControlKind::MvLocks
    }

    fn reads_start(_level: Level, read_only: bool) -> bool {
        read_only
    }

    fn wants(
        alloc: Global,
        _level: Level,
        read_only: bool,
        footprint: &Footprint,
    ) -> Result<Claims, NoMemory> {
        if !read_only {
            return table_wants(alloc, footprint);
        }
        catalog_claims(alloc, false)
    }

    fn keeps(
        alloc: Global,
        level: Level,
        read_only: bool,
        footprint: &Footprint,
    ) -> Result<Claims, NoMemory> {
        if read_only {
            return catalog_claims(alloc, false);
        }
        table_keeps(alloc, level, footprint)
    }

    ghost kept_is_wanted = { mvlocks_kept };

    ghost cover = { mvlocks_cover };

    ghost hold = { mvlocks_hold };
}
