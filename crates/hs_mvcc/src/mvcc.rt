// The model MVCC.
ghost use Rattle.std.specs.Prelude.{◌≡◌, ◌∷◌, ◌++◌, false, map, IfOk, OnOk};
ghost use Rattle.hs_claims.specs.Wants as spec;

use hs_base::{NoMemory, RowNames};
use hs_claims::{
    Claim, Claims, ControlKind, Footprint, KeyNames, Level, Resource, TxModel, catalog_claims,
};
use std::alloc::Global;

/// The model MVCC: a statement claims the committed rows that it changes and the unique keys that it puts or removes,
/// exclusive, and the parent keys that its put rows name, shared. It keeps them all, and in a read-only transaction
/// there are none. At snapshot isolation it reads the state at its transaction's start, and else the present one.
#[derive(Clone, Copy, Debug)]
pub struct Mvcc;

impl TxModel for Mvcc {
    ghost use Rattle.hs_claims.specs.declared.model.ControlKind.TheVariants as kind;
    ghost use Rattle.hs_mvcc.specs.Laws.{mvcc_kept, mvcc_cover, mvcc_hold};

    ghost model = { kind.Mvcc };

    fn kind() -> ControlKind {
        ControlKind::Mvcc
    }

    fn reads_start(level: Level, _read_only: bool) -> bool {
        matches!(level, Level::Snap)
    }

    fn wants(
        alloc: Global,
        _level: Level,
        read_only: bool,
        footprint: &Footprint,
    ) -> Result<Claims, NoMemory> {
        claims_of(alloc, read_only, footprint)
    }

    fn keeps(
        alloc: Global,
        _level: Level,
        read_only: bool,
        footprint: &Footprint,
    ) -> Result<Claims, NoMemory> {
        claims_of(alloc, read_only, footprint)
    }

    ghost kept_is_wanted = { mvcc_kept };

    ghost cover = { mvcc_cover };

    ghost hold = { mvcc_hold };
}

// The catalogue shared, and unless the transaction is read-only, the rows and keys.
fn claims_of(alloc: Global, read_only: bool, footprint: &Footprint) -> Result<Claims, NoMemory>
    ensures { IfOk result (λ claims. claims ≡ spec.catalog_claim false ∷ spec.unless_read_only read_only (spec.row_wants footprint.now)) }
{
    let mut claims = catalog_claims(alloc, false)?;
    if !read_only {
        push_rows(&mut claims, &footprint.rows)?;
        push_keys(&mut claims, &footprint.keys, true)?;
        push_keys(&mut claims, &footprint.parents, false)?;
    }
    Ok(claims)
}

// Adds an exclusive claim for each of these rows. After an `Err` some of them are added.
fn push_rows(claims: &mut Claims, rows: &RowNames) -> Result<(), NoMemory>
    ensures { OnOk result (claims.new ≡ claims.old ++ map spec.row_claim rows.now) }
{
    for row in rows.as_slice() {
        claims.push(Claim {
            resource: Resource::Row(row.table, row.row),
            exclusive: true,
        })?;
    }
    Ok(())
}

// Adds a claim for each of these keys. After an `Err` some of them are added.
fn push_keys(claims: &mut Claims, keys: &KeyNames, exclusive: bool) -> Result<(), NoMemory>
    ensures { OnOk result (claims.new ≡ claims.old ++ map (spec.key_claim exclusive) keys.now) }
{
    for key in keys.as_slice() {
        claims.push(Claim {
            resource: Resource::Key(key.table, key.constraint, key.values.copy()?),
            exclusive,
        })?;
    }
    Ok(())
}
