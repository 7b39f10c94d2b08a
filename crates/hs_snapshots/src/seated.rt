// What is read and changed at the place of a transaction.
ghost use Rattle.std.specs.Prelude.{◌≡◌, ◌==◌, ◌<◌, ◌++◌, List, true, length, take, IfOk, IfSome, OnOk};
ghost use Rattle.std.specs.List.{position};
ghost use Rattle.hs_plan.specs.declared.change.Change.{Change};
ghost use Rattle.hs_queue.specs.Entries.{entry_of};
ghost use Rattle.hs_seams.specs.Calls.{IsEntry};
ghost use Rattle.hs_seams.specs.Stores.{seen};
ghost use Rattle.hs_seams.specs.World.{World};
ghost use Rattle.hs_turns.specs.Histories.{Commit};
ghost use Rattle.hs_snapshots.specs.Places.{commits_at, index_at};
ghost use Rattle.hs_snapshots.specs.Stores.{EvaluatesAt, IsReadyAt, IsStores, starts_of};

use crate::stores::Stores;
use hs_ast::Stmt;
use hs_base::NoMemory;
use hs_plan::Changes;
use hs_queue::Entry;
use hs_seams::{Outcome, Store};
use hs_values::Chars;

impl<S: Store + Drop> Stores<S> {
    /// Why a data statement or a definition is refused before it wants anything, in a read-only transaction or another. An `Err` is
    /// want of memory.
    pub fn refusal(
        &self,
        entry: &Entry,
        statement: &Stmt,
        read_only: bool,
    ) -> Result<Option<Chars>, NoMemory>
        requires entry { IsEntry entry.now }
        requires tree { S.is_read statement.now (entry_of entry.now).text }
        ensures { (w : World) (commits : List Commit) (seated : List Change) → IsStores S.stands self.now w commits seated → IfOk result (λ why. why ≡ w.run.dialect.refusal read_only (seen w (commits_at self.now.place commits) seated) (entry_of entry.now).text) }
    {
        match self.index() {
            None => self.present.refusal(entry, statement, read_only),
            Some(index) => self.snapshots[index]
                .store
                .refusal(entry, statement, read_only),
        }
    }

    /// What a data statement comes to, or why it is refused before it wants anything. Its changes are made behind those that are at
    /// the place. The database there with these is valid. An `Err` is want of memory.
    pub fn evaluate(
        &mut self,
        entry: &Entry,
        statement: &Stmt,
        read_only: bool,
    ) -> Result<Result<Outcome, Chars>, NoMemory>
        requires ready { IsReadyAt (IsStores S.stands self.old) self.old.place }
        requires entry { IsEntry entry.now }
        requires tree { S.is_read statement.now (entry_of entry.now).text }
        ensures evaluates { (w : World) (commits : List Commit) (seated : List Change) → IsStores S.stands self.old w commits seated → w.run.dialect.is_valid (seen w (commits_at self.old.place commits) seated) ≡ true
            → IfOk result (EvaluatesAt (IsStores S.stands self.new) self.old.place w commits seated read_only (entry_of entry.now).text) }
        ensures starts { starts_of self.new ≡ starts_of self.old }
        ensures place { self.new.place ≡ self.old.place }
    {
        match self.index() {
            None => self.present.evaluate(entry, statement, read_only),
            Some(index) => {
                let snapshot = &mut self.snapshots[index];
                snapshot.store.evaluate(entry, statement, read_only)
            }
        }
    }

    /// Takes back the changes behind the first so many. An `Err` is want of memory.
    pub fn back(&mut self, len: usize) -> Result<(), NoMemory>
        ensures stands { (w : World) (commits : List Commit) (seated : List Change) → IsStores S.stands self.old w commits seated → OnOk result (IsStores S.stands self.new w commits (take len seated)) }
        ensures starts { starts_of self.new ≡ starts_of self.old }
        ensures place { self.new.place ≡ self.old.place }
    {
        match self.index() {
            None => self.present.back(len),
            Some(index) => {
                let snapshot = &mut self.snapshots[index];
                snapshot.store.back(len)
            }
        }
    }

    /// Makes changes of rows behind those that are at the place. An `Err` is want of memory.
    pub fn advance(&mut self, changes: &Changes) -> Result<(), NoMemory>
        ensures stands { (w : World) (commits : List Commit) (seated : List Change) → IsStores S.stands self.old w commits seated → OnOk result (IsStores S.stands self.new w commits (seated ++ changes.now)) }
        ensures starts { starts_of self.new ≡ starts_of self.old }
        ensures place { self.new.place ≡ self.old.place }
    {
        match self.index() {
            None => self.present.advance(changes),
            Some(index) => {
                let snapshot = &mut self.snapshots[index];
                snapshot.store.advance(changes)
            }
        }
    }

    // The snapshot at the place, by its index: None at the present.
    fn index(&self) -> Option<usize>
        ensures is { result ≡ index_at self.now.place self.now.snapshots.items }
        ensures inside { IfSome result (λ i. i < length self.now.snapshots.items) }
    {
        match self.place {
            None => None,
            Some(start) => self.index_of(start),
        }
    }

    // The snapshot behind so many commits.
    fn index_of(&self, start: u64) -> Option<usize>
        ensures is { result ≡ position (λ s. s.start == start) self.now.snapshots.items }
        ensures inside { IfSome result (λ i. i < length self.now.snapshots.items) }
    {
        self.snapshots
            .iter()
            .position(|snapshot| snapshot.start == start)
    }
}
