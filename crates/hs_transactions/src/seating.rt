// Whose changes are on which database, and transactions that begin and end without a commit.
ghost use Rattle.std.specs.Prelude.{◌≡◌, ◌++◌, ℕ, List, None, Some, OnOk, if◌then◌else◌};
ghost use Rattle.hs_claims.specs.Session.{IsSession};
ghost use Rattle.hs_plan.specs.declared.change.Change.{Change};
ghost use Rattle.hs_seams.specs.World.{World};
ghost use Rattle.hs_tied.specs.Kept.{Kept, left, opened, own_for};
ghost use Rattle.hs_moves.specs.Fits.{Fits, IsHere, Rests, changes_of};
ghost use Rattle.hs_moves.specs.Parts.{Parts};
ghost use Rattle.hs_moves.specs.Spanned.{read_by};
ghost use Rattle.hs_snapshots.specs.Places.{IsPlace, has_start};
ghost use Rattle.hs_snapshots.specs.Stores.{IsStores, starts_of};
ghost use Rattle.hs_transactions.specs.Parts.{parts_of, spans_of};
ghost use Rattle.hs_transactions.specs.Standing.{IsPlaced};

use crate::transactions::Transactions;
use hs_base::{CommitNo, NoMemory, SessionNo};
use hs_models::reads_start;
use hs_seams::Store;

impl<S: Store + Drop> Transactions<S> {
    // What statements of a session read: the present, where they don't read their transaction's start or no commit came since,
    // and else the snapshot.
    fn place_of(&self, session: SessionNo) -> Option<u64>
        requires { IsHere (parts_of self.now) session.0 }
        ensures start { IsPlace result (starts_of self.now.stores) }
        ensures placed { (w : World) (k : Kept) → Rests (parts_of self.now) w k → IsPlaced result session.0 k }
    {
        let own = self.holding.own(session, self.kind);
        if !reads_start(self.kind, own.level, own.read_only) {
            return None;
        }
        match self.holding.start(session) {
            None => None,
            Some(start) => self.snapshot_at(start.0),
        }
    }

    // The snapshot behind so many commits, and the present where there is none.
    fn snapshot_at(&self, start: u64) -> Option<u64>
        ensures { result ≡ (if has_start start (starts_of self.now.stores) then Some start else None) }
    {
        if self.stores.has(start) {
            return Some(start);
        }
        None
    }

    // Puts the changes of a session's transaction on the database at a place, in place of those of another one. An `Err` is
    // want of memory.
    fn move_to(&mut self, place: Option<u64>, session: SessionNo) -> Result<(), NoMemory>
        requires here { IsHere (parts_of self.old) session.0 }
        requires start { IsPlace place (starts_of self.old.stores) }
        ensures fits { (w : World) (k : Kept) → Fits (IsStores S.stands) (parts_of self.old) w k → OnOk result (Fits (IsStores S.stands) (parts_of self.new) w k) }
        ensures seated { OnOk result (self.new.seated.0 ≡ session.0) }
        ensures place { OnOk result (self.new.stores.place ≡ place) }
        ensures holding { self.new.holding ≡ self.old.holding }
        ensures commits { self.new.commits ≡ self.old.commits }
        ensures spans { OnOk result (spans_of self.new ≡ spans_of self.old) }
    {
        self.stores.back(0)?;
        self.stores.sit(place);
        self.stores.advance(self.holding.changes(session))?;
        self.seated = session;
        Ok(())
    }

    // Puts the changes of a session's transaction on the database that its statements read, in place of those of another one.
    // An `Err` is want of memory.
    pub(crate) fn seat(&mut self, session: SessionNo) -> Result<(), NoMemory>
        requires { IsHere (parts_of self.old) session.0 }
        ensures fits { (w : World) (k : Kept) → Fits (IsStores S.stands) (parts_of self.old) w k → OnOk result (Fits (IsStores S.stands) (parts_of self.new) w k) }
        ensures seated { OnOk result (self.new.seated.0 ≡ session.0) }
        ensures placed { (w : World) (k : Kept) → Rests (parts_of self.old) w k → OnOk result (IsPlaced self.new.stores.place session.0 k) }
        ensures holding { self.new.holding ≡ self.old.holding }
        ensures commits { self.new.commits ≡ self.old.commits }
        ensures spans { OnOk result (spans_of self.new ≡ spans_of self.old) }
    {
        let place = self.place_of(session);
        if self.seated.0 == session.0 && self.stores.place == place {
            return Ok(());
        }
        self.move_to(place, session)
    }

    // Puts the changes of a session's transaction on the present database, in place of those of another one. An `Err` is want
    // of memory.
    pub(crate) fn seat_for_commit(&mut self, session: SessionNo) -> Result<(), NoMemory>
        requires { IsHere (parts_of self.old) session.0 }
        ensures fits { (w : World) (k : Kept) → Fits (IsStores S.stands) (parts_of self.old) w k → OnOk result (Fits (IsStores S.stands) (parts_of self.new) w k) }
        ensures seated { OnOk result (self.new.seated.0 ≡ session.0) }
        ensures place { OnOk result (self.new.stores.place ≡ None) }
        ensures holding { self.new.holding ≡ self.old.holding }
        ensures commits { self.new.commits ≡ self.old.commits }
        ensures spans { OnOk result (spans_of self.new ≡ spans_of self.old) }
    {
        if self.seated.0 == session.0 && self.stores.place.is_none() {
            return Ok(());
        }
        self.move_to(None, session)
    }

    // Ends a session's transaction without a commit, if one is open. An `Err` is want of memory.
    pub(crate) fn leave(&mut self, session: SessionNo) -> Result<(), NoMemory>
        requires here { IsHere (parts_of self.old) session.0 }
        requires fits { (w : World) × (k : Kept) × Fits (IsStores S.stands) (parts_of self.old) w k }
        ensures { (w : World) (k : Kept) → Fits (IsStores S.stands) (parts_of self.old) w k → OnOk result (Fits (IsStores S.stands) (parts_of self.new) w (left session.0 k)) }
    {
        let start = self.holding.start(session);
        self.drop_changes(session)?;
        self.tidy(start);
        Ok(())
    }

    // The same, where what is kept for the transaction stays. An `Err` is want of memory.
    fn drop_changes(&mut self, session: SessionNo) -> Result<(), NoMemory>
        requires { IsHere (parts_of self.old) session.0 }
        ensures fits { (w : World) (k : Kept) → Fits (IsStores S.stands) (parts_of self.old) w k → OnOk result (Fits (IsStores S.stands) (parts_of self.new) w (left session.0 k)) }
        ensures here { OnOk result (IsHere (parts_of self.new) session.0) }
    {
        if self.seated.0 != session.0 {
            self.holding.end(session, self.alloc);
            return Ok(());
        }
        self.stores.back(0)?;
        self.stores.sit(None);
        self.holding.end(session, self.alloc);
        Ok(())
    }

    // Begins a transaction of a session, where none is open. An `Err` is want of memory.
    pub(crate) fn begin(&mut self, session: SessionNo, auto: bool) -> Result<(), NoMemory>
        requires { IsHere (parts_of self.old) session.0 }
        ensures rests { (w : World) (k : Kept) → Rests (parts_of self.old) w k → OnOk result (Rests (parts_of self.new) w (opened session.0 auto k)) }
        ensures changes { (w : World) (k : Kept) → Rests (parts_of self.old) w k → OnOk result ((b : ℕ) → IsSession b → changes_of (parts_of self.new) b ≡ changes_of (parts_of self.old) b) }
        ensures here { OnOk result (IsHere (parts_of self.new) session.0) }
        ensures stores { self.new.stores ≡ self.old.stores }
        ensures seated { self.new.seated ≡ self.old.seated }
    {
        if self.holding.is_open(session) {
            return Ok(());
        }
        self.holding
            .begin(session, auto, CommitNo(self.count), self.alloc)?;
        Ok(())
    }

    // The same, where a statement's changes are on the database behind those of the session's transaction: they are taken
    // back. An `Err` is want of memory.
    pub(crate) fn withdraw(&mut self, session: SessionNo, auto: bool) -> Result<(), NoMemory>
        requires { IsHere (parts_of self.old) session.0 }
        ensures fits { (w : World) (k : Kept) (more : List Change) → Rests (parts_of self.old) w k → IsStores S.stands self.old.stores w k.commits (changes_of (parts_of self.old) session.0 ++ more) → self.old.seated.0 ≡ session.0
            → OnOk result (Fits (IsStores S.stands) (parts_of self.new) w (opened session.0 auto k)) }
        ensures here { OnOk result (IsHere (parts_of self.new) session.0) }
    {
        let before = self.holding.changes(session).len();
        self.stores.back(before)?;
        self.begin(session, auto)?;
        Ok(())
    }
}
