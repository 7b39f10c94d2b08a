// Commits of transactions.
ghost use Rattle.std.specs.Prelude.{◌≡◌, ◌≤◌, None, length, IfOk, OnOk};
ghost use Rattle.hs_claims.specs.Held.{held_by};
ghost use Rattle.hs_turns.specs.Histories.{Open};
ghost use Rattle.hs_seams.specs.World.{World};
ghost use Rattle.hs_tied.specs.Kept.{Kept};
ghost use Rattle.hs_moves.specs.Fits.{IsHere, changes_of};
ghost use Rattle.hs_moves.specs.Parts.{Parts};
ghost use Rattle.hs_transactions.specs.Parts.{parts_of};
ghost use Rattle.hs_transactions.specs.Settled.{AreKept, IsCommitted, IsOnStore, IsReadyFor, IsSettled};
ghost use Rattle.hs_snapshots.specs.Stores.{IsStores};

use crate::transactions::Transactions;
use hs_base::{CommitNo, NoMemory, SessionNo};
use hs_claims::Claims;
use hs_log::Batch;
use hs_seams::Store;

/// What the commit of a transaction comes to.
#[derive(Clone, Copy, Debug, PartialEq, Eq)]
pub(crate) enum Settled {
    /// It changed nothing, so that there is nothing to commit.
    Unchanged,
    /// It is committed, and has ended.
    Committed(CommitNo),
    /// The database would have more changes than it may have in its life.
    TooManyChanges,
    /// The log would be too long.
    LogFull,
}

impl<S: Store + Drop> Transactions<S> {
    // Commits the transaction of a session, whose changes are on the present database. It is left as it is where there is
    // nothing to commit, or no room. An `Err` is want of memory.
    pub(crate) fn settle(
        &mut self,
        session: SessionNo,
        made: &mut Batch,
    ) -> Result<Settled, NoMemory>
        requires here { IsHere (parts_of self.old) session.0 }
        requires place { self.old.stores.place ≡ None }
        requires on_store { (w : World) × (k : Kept) × (o : Open) × IsOnStore (IsStores S.stands) (parts_of self.old) w k o session.0 }
        ensures settled { (w : World) (k : Kept) (o : Open) → IsOnStore (IsStores S.stands) (parts_of self.old) w k o session.0 → IfOk result (IsSettled (IsStores S.stands) w k o (parts_of self.new) made.old made.new) }
        ensures here { OnOk result (IsHere (parts_of self.new) session.0) }
    {
        let count = self.holding.changes(session).len();
        if count == 0 {
            return Ok(Settled::Unchanged);
        }
        if !self.stores.has_room(count) {
            return Ok(Settled::TooManyChanges);
        }
        self.keep_for_readers(session)?;
        let claims = self.claims_to_keep(session)?;
        let start = self.holding.start(session);
        if !self.commit_changes(session, claims, made)? {
            return Ok(Settled::LogFull);
        }
        let number = CommitNo(self.commits);
        self.tidy(start);
        Ok(Settled::Committed(number))
    }

    // Commits the changes of a session's transaction, of which there are some, and ends it, where the log has room. What other
    // transactions need is kept. An `Err` is want of memory.
    fn commit_changes(
        &mut self,
        session: SessionNo,
        claims: Option<Claims>,
        made: &mut Batch,
    ) -> Result<bool, NoMemory>
        requires here { IsHere (parts_of self.old) session.0 }
        requires place { self.old.stores.place ≡ None }
        requires some { 1 ≤ length (changes_of (parts_of self.old) session.0) }
        requires room { (w : World) × (k : Kept) × (o : Open) × IsReadyFor (IsStores S.stands) (parts_of self.old) w k o session.0 }
        ensures done { (w : World) (k : Kept) (o : Open) → IsReadyFor (IsStores S.stands) (parts_of self.old) w k o session.0 → AreKept session.0 k (held_by self.old.holding.claims session.0) claims
            → IfOk result (IsCommitted (IsStores S.stands) w k o (parts_of self.new) made.old made.new) }
        ensures here { OnOk result (IsHere (parts_of self.new) session.0) }
    {
        if !self
            .stores
            .commit(session, self.holding.changes(session), made)?
        {
            return Ok(false);
        }
        self.commits += 1;
        self.count += 1;
        self.holding.end(session, self.alloc);
        self.note(claims)?;
        Ok(true)
    }
}
