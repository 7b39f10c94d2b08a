// What is kept for transactions that read their start, and for those that may conflict with commits since.
ghost use Rattle.std.specs.Prelude.{◌≡◌, ◌+◌, ◌<◌, ◌^◌, [], ◌∷◌, ◌++◌, List, None, Some, true, false, IfOk, OnOk};
ghost use Rattle.hs_claims.specs.declared.claim.Claim.{Claim};
ghost use Rattle.hs_claims.specs.Held.{held_by};
ghost use Rattle.hs_claims.specs.Wants.{reads_start_of};
ghost use Rattle.hs_turns.specs.Each.{Each};
ghost use Rattle.hs_turns.specs.Histories.{others};
ghost use Rattle.hs_seams.specs.World.{World};
ghost use Rattle.hs_tied.specs.Kept.{Kept};
ghost use Rattle.hs_moves.specs.Fits.{Fits, IsHere, Rests};
ghost use Rattle.hs_moves.specs.Parts.{Parts};
ghost use Rattle.hs_moves.specs.Spanned.{is_live, may_conflict};
ghost use Rattle.hs_snapshots.specs.Stores.{IsStores};
ghost use Rattle.hs_transactions.specs.Parts.{parts_of, spans_of};
ghost use Rattle.hs_transactions.specs.Settled.{IsKeptFor, AreKept};

use crate::transactions::Transactions;
use hs_base::{CommitNo, NoMemory, SessionNo};
use hs_claims::Claims;
use hs_seams::Store;

impl<S: Store + Drop> Transactions<S> {
    // Before a commit of a session, whose changes are on the present database: takes a snapshot, where another session's open
    // transaction reads the present as its start and there is none yet. An `Err` is want of memory.
    pub(crate) fn keep_for_readers(&mut self, session: SessionNo) -> Result<(), NoMemory>
        requires here { IsHere (parts_of self.old) session.0 }
        requires seated { self.old.seated.0 ≡ session.0 }
        requires place { self.old.stores.place ≡ None }
        requires fits { (w : World) × (k : Kept) × Fits (IsStores S.stands) (parts_of self.old) w k }
        ensures fits { (w : World) (k : Kept) → Fits (IsStores S.stands) (parts_of self.old) w k → OnOk result (Fits (IsStores S.stands) (parts_of self.new) w k × IsKeptFor session.0 k (spans_of self.new).live) }
        ensures place { OnOk result (self.new.stores.place ≡ None) }
        ensures holding { self.new.holding ≡ self.old.holding }
        ensures seated { self.new.seated ≡ self.old.seated }
        ensures commits { self.new.commits ≡ self.old.commits }
    {
        if self.stores.has(self.count) {
            return Ok(());
        }
        if !self
            .holding
            .is_read_from(self.kind, CommitNo(self.count), session)
        {
            return Ok(());
        }
        self.stores.back(0)?;
        self.stores.keep(self.count)?;
        self.stores.advance(self.holding.changes(session))?;
        Ok(())
    }

    // What a session's transaction claims, where another session's open transaction may conflict with its commit. An `Err` is
    // want of memory.
    pub(crate) fn claims_to_keep(&self, session: SessionNo) -> Result<Option<Claims>, NoMemory>
        requires here { IsHere (parts_of self.now) session.0 }
        requires rests { (w : World) × (k : Kept) × Rests (parts_of self.now) w k }
        ensures { (w : World) (k : Kept) → Rests (parts_of self.now) w k → IfOk result (AreKept session.0 k (held_by self.now.holding.claims session.0)) }
    {
        match self.holding.least_start(self.kind, session) {
            None => Ok(None),
            Some(_) => Ok(Some(self.holding.claims_of(session)?)),
        }
    }

    // Keeps the claims of a commit that was made, or none at all. An `Err` is want of memory.
    pub(crate) fn note(&mut self, claims: Option<Claims>) -> Result<(), NoMemory>
        ensures kept { OnOk result ((some : List Claim) → claims ≡ Some some → (self.new.past.first ≡ self.old.past.first) × (self.new.past.claims.items ≡ self.old.past.claims.items ++ some ∷ [])) }
        ensures none { OnOk result (claims ≡ None → (self.new.past.first ≡ self.old.count) × (self.new.past.claims.items ≡ [])) }
        ensures stores { self.new.stores ≡ self.old.stores }
        ensures holding { self.new.holding ≡ self.old.holding }
        ensures seated { self.new.seated ≡ self.old.seated }
        ensures kind { self.new.kind ≡ self.old.kind }
        ensures commits { self.new.commits ≡ self.old.commits }
        ensures made { self.new.made ≡ self.old.made }
        ensures count { self.new.count ≡ self.old.count }
    {
        match claims {
            Some(claims) => {
                self.past.push(claims)?;
                Ok(())
            }
            None => {
                self.past.forget(self.count);
                Ok(())
            }
        }
    }

    // Behind the end of a session's transaction, which had this start: drops its snapshot and claims that nobody needs any more.
    // Takes no memory.
    pub(crate) fn tidy(&mut self, start: Option<CommitNo>)
        requires { (w : World) × (k : Kept) × Fits (IsStores S.stands) (parts_of self.old) w k }
        ensures fits { (w : World) (k : Kept) → Fits (IsStores S.stands) (parts_of self.old) w k → Fits (IsStores S.stands) (parts_of self.new) w k }
        ensures holding { self.new.holding ≡ self.old.holding }
    {
        match start {
            Some(start) => {
                self.release(start);
                self.forget_claims();
            }
            None => self.forget_claims(),
        }
    }

    // Drops the snapshot behind so many commits, where no open transaction reads it. Takes no memory.
    fn release(&mut self, start: CommitNo)
        requires { (w : World) × (k : Kept) × Fits (IsStores S.stands) (parts_of self.old) w k }
        ensures fits { (w : World) (k : Kept) → Fits (IsStores S.stands) (parts_of self.old) w k → Fits (IsStores S.stands) (parts_of self.new) w k }
        ensures holding { self.new.holding ≡ self.old.holding }
    {
        if !self.stores.has(start.0) {
            return;
        }
        if self.stores.place == Some(start.0) {
            return;
        }
        if self.holding.uses(self.kind, start) {
            return;
        }
        self.stores.release(start.0);
    }

    // Drops claims of commits with which no open transaction may conflict. Takes no memory.
    fn forget_claims(&mut self)
        requires { (w : World) × (k : Kept) × Fits (IsStores S.stands) (parts_of self.old) w k }
        ensures fits { (w : World) (k : Kept) → Fits (IsStores S.stands) (parts_of self.old) w k → Fits (IsStores S.stands) (parts_of self.new) w k }
        ensures holding { self.new.holding ≡ self.old.holding }
    {
        if self.past.claims.is_empty() {
            return;
        }
        // No session has this number.
        match self.holding.least_start(self.kind, SessionNo(0)) {
            Some(least) => self.past.drop_before(least.0),
            None => self.past.forget(self.count),
        }
    }
}
