// The model LOCKS.
ghost use Rattle.std.specs.Prelude.{◌≡◌, ◌∷◌, ◌++◌, false, map, IfOk, OnOk};
ghost use Rattle.hs_claims.specs.Wants as spec;

use hs_base::{NoMemory, Tables};
use hs_claims::{Claim, Claims, ControlKind, Footprint, Level, Resource, TxModel, catalog_claims};
use std::alloc::Global;

/// The model LOCKS: a statement claims each table that it reads, shared, and each that it writes, exclusive, and keeps
/// them; at READ COMMITTED it doesn't keep the shared ones. Every statement reads the present state.
#[derive(Clone, Copy, Debug)]
pub struct Locks;

impl TxModel for Locks {
    ghost use Rattle.hs_claims.specs.declared.model.ControlKind.TheVariants as kind;
    ghost use Rattle.hs_locks.specs.Laws.{locks_kept, locks_cover, locks_hold};

    ghost model = { kind.Locks };

    fn kind() -> ControlKind {
        ControlKind::Locks
    }

    fn reads_start(_level: Level, _read_only: bool) -> bool {
        false
    }

    fn wants(
        alloc: Global,
        _level: Level,
        _read_only: bool,
        footprint: &Footprint,
    ) -> Result<Claims, NoMemory> {
        table_wants(alloc, footprint)
    }

    fn keeps(
        alloc: Global,
        level: Level,
        _read_only: bool,
        footprint: &Footprint,
    ) -> Result<Claims, NoMemory> {
        table_keeps(alloc, level, footprint)
    }

    ghost kept_is_wanted = { locks_kept };

    ghost cover = { locks_cover };

    ghost hold = { locks_hold };
}

/// The catalogue shared, each table written exclusive, and each table read shared. An `Err` is want of memory.
pub fn table_wants(alloc: Global, footprint: &Footprint) -> Result<Claims, NoMemory>
    ensures { IfOk result (λ claims. claims ≡ spec.catalog_claim false ∷ spec.table_wants footprint.now) }
{
    let mut claims = catalog_claims(alloc, false)?;
    push_tables(&mut claims, &footprint.writes, true)?;
    push_tables(&mut claims, &footprint.reads, false)?;
    Ok(claims)
}

/// Those of them that are kept at a level. An `Err` is want of memory.
pub fn table_keeps(alloc: Global, level: Level, footprint: &Footprint) -> Result<Claims, NoMemory>
    ensures { IfOk result (λ claims. claims ≡ spec.catalog_claim false ∷ spec.table_keeps level footprint.now) }
{
    match level {
        Level::Rc => {
            let mut claims = catalog_claims(alloc, false)?;
            push_tables(&mut claims, &footprint.writes, true)?;
            Ok(claims)
        }
        Level::Ser | Level::Snap => table_wants(alloc, footprint),
    }
}

/// Adds a claim for each of these tables. An `Err` is want of memory; then some of them are added.
pub fn push_tables(claims: &mut Claims, tables: &Tables, exclusive: bool) -> Result<(), NoMemory>
    ensures { OnOk result (claims.new ≡ claims.old ++ map (spec.table_claim exclusive) tables.now) }
{
    for table in tables.as_slice() {
        claims.push(Claim {
            resource: Resource::Table(*table),
            exclusive,
        })?;
    }
    Ok(())
}
