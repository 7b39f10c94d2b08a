// The stores, and which of them there are.
ghost use Rattle.std.specs.Prelude.{◌≡◌, ◌==◌, ◌∷◌, ◌++◌, [], List, Some, None, false, length, OnOk};
ghost use Rattle.std.specs.List.{list_any};
ghost use Rattle.hs_plan.specs.declared.change.Change.{Change};
ghost use Rattle.hs_seams.specs.World.{World};
ghost use Rattle.hs_turns.specs.Histories.{Commit};
ghost use Rattle.hs_snapshots.specs.Places.{IsPlace, has_start, place_without, starts_without};
ghost use Rattle.hs_snapshots.specs.Stores.{IsStores, starts_of};

use crate::snapshot::Snapshot;
use hs_base::NoMemory;
use hs_seams::Store;
use std::alloc::Global;

/// The store of the present and those of snapshots. The changes of one transaction are on one of them, which is what statements
/// read.
#[derive(Drop)]
pub struct Stores<S> {
    pub present: S,
    pub snapshots: Vec<Snapshot<S>>,
    /// The store with the changes: that of the present, or of the snapshot behind so many commits.
    pub place: Option<u64>,
}

impl<S: Store + Drop> Stores<S> {
    /// A store of the present alone. Takes no memory.
    pub fn new(alloc: Global, present: S) -> Stores<S>
        ensures stands { (w : World) (commits : List Commit) → S.stands present w commits [] → IsStores S.stands result w commits [] }
        ensures starts { starts_of result ≡ [] }
        ensures place { result.place ≡ None }
    {
        Stores {
            present,
            snapshots: Vec::new(alloc),
            place: None,
        }
    }

    /// Whether there is a snapshot behind so many commits.
    pub fn has(&self, start: u64) -> bool
        ensures { result ≡ has_start start (starts_of self.now) }
    {
        has_among(&self.snapshots, start)
    }

    /// Keeps a snapshot of the present, behind so many commits. No changes of a transaction are on a store. An `Err` is want of
    /// memory.
    pub fn keep(&mut self, start: u64) -> Result<(), NoMemory>
        ensures stands { (w : World) (commits : List Commit) → IsStores S.stands self.old w commits [] → start ≡ length commits → has_start start (starts_of self.old) ≡ false → OnOk result (IsStores S.stands self.new w commits []) }
        ensures starts { OnOk result (starts_of self.new ≡ starts_of self.old ++ start ∷ []) }
        ensures place { self.new.place ≡ self.old.place }
    {
        let store = self.present.copy()?;
        self.snapshots.push(Snapshot { start, store })?;
        Ok(())
    }

    /// Gives the next changes of a transaction this place, which is the present or a snapshot. No changes are on a store.
    pub fn sit(&mut self, place: Option<u64>)
        requires { IsPlace place (starts_of self.old) }
        ensures stands { (w : World) (commits : List Commit) → IsStores S.stands self.old w commits [] → IsStores S.stands self.new w commits [] }
        ensures starts { starts_of self.new ≡ starts_of self.old }
        ensures place { self.new.place ≡ place }
    {
        self.place = place;
    }

    /// Drops the snapshot behind so many commits, if there is one, on which no changes are. A place there becomes the present.
    pub fn release(&mut self, start: u64)
        ensures stands { (w : World) (commits : List Commit) (seated : List Change) → IsStores S.stands self.old w commits seated → (self.old.place ≡ Some start → seated ≡ []) → IsStores S.stands self.new w commits seated }
        ensures starts { starts_of self.new ≡ starts_without start (starts_of self.old) }
        ensures place { self.new.place ≡ place_without start self.old.place }
    {
        self.snapshots.retain(|snapshot| snapshot.start != start);
        self.place = left_place(self.place, start);
    }
}

// Whether one of these snapshots is behind so many commits.
fn has_among<S>(snapshots: &[Snapshot<S>], start: u64) -> bool
    ensures { result ≡ list_any (λ s. s.start == start) snapshots.now }
{
    snapshots.iter().any(|snapshot| snapshot.start == start)
}

// Where a place is once a snapshot is dropped.
fn left_place(place: Option<u64>, gone: u64) -> Option<u64>
    ensures { result ≡ place_without gone place }
{
    match place {
        None => None,
        Some(start) => {
            if start == gone {
                return None;
            }
            Some(start)
        }
    }
}
