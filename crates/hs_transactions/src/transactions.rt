// The engine: its parts, and how it begins.
ghost use Rattle.std.specs.Prelude.{◌≡◌, ◌≤◌, []};
ghost use Rattle.hs_seams.specs.World.{World};
ghost use Rattle.hs_moves.specs.Parts.{Parts};
ghost use Rattle.hs_snapshots.specs.Stores.{IsStores};
ghost use Rattle.hs_transactions.specs.Parts.{parts_of};
ghost use Rattle.hs_transactions.specs.Standing.{Stands, begun_side};

use hs_base::SessionNo;
use hs_claims::ControlKind;
use hs_conflicts::Past;
use hs_holding::Holding;
use hs_seams::Store;
use hs_snapshots::Stores;
use std::alloc::Global;

/// An engine of any model of transactions over a store: what the sessions hold, the store of the present with snapshots of it, the
/// changes of one transaction on one of these, and the claims of commits with which open transactions may conflict.
#[derive(Drop)]
pub struct Transactions<S> {
    pub(crate) alloc: Global,
    pub(crate) stores: Stores<S>,
    pub(crate) holding: Holding,
    pub(crate) past: Past,
    // The session whose changes are on a store's database.
    pub(crate) seated: SessionNo,
    // The model of transactions.
    pub(crate) kind: ControlKind,
    // How many commits the database has, how many of these were there at first, and how many came since.
    pub(crate) commits: u64,
    pub(crate) made: u64,
    pub(crate) count: u64,
}

impl<S: Store + Drop> Transactions<S> {
    /// An engine without sessions over a store without changes of a transaction, whose database has so many commits. Takes no
    /// memory.
    pub fn new(alloc: Global, store: S, commits: u64) -> Transactions<S>
        ensures { (w : World) → S.stands store w [] [] → w.run.made ≡ commits → w.run.made ≤ w.run.opening.count → Stands (IsStores S.stands) (parts_of result) w (begun_side w) }
    {
        let kind = store.control();
        Transactions {
            alloc,
            stores: Stores::new(alloc, store),
            holding: Holding::new(alloc),
            past: Past::new(alloc),
            seated: SessionNo(1),
            kind,
            commits,
            made: commits,
            count: 0,
        }
    }
}
