// START TRANSACTION, COMMIT and ROLLBACK.
ghost use Rattle.std.specs.Prelude.{◌≡◌, [], true, false, IfOk, OnOk};
ghost use Rattle.hs_holding.specs.Held.{is_open_at};
ghost use Rattle.hs_queue.specs.Entries.{entry_of};
ghost use Rattle.hs_seams.specs.World.{World};
ghost use Rattle.hs_sides.specs.Sides.{side_of};
ghost use Rattle.hs_tied.specs.Kept.{Kept, opened};
ghost use Rattle.hs_turns.specs.Attempts.{attempt_commit, attempt_rollback, attempt_start, named};
ghost use Rattle.hs_turns.specs.Dialect.{Request as request};
ghost use Rattle.hs_turns.specs.Machine.{Machine, is_open, open_of};
ghost use Rattle.hs_moves.specs.Fits.{Fits, IsHere, kept_of};
ghost use Rattle.hs_moves.specs.Moves.{Moves};
ghost use Rattle.hs_moves.specs.Parts.{Parts};
ghost use Rattle.hs_transactions.specs.Parts.{parts_of};
ghost use Rattle.hs_snapshots.specs.Stores.{IsStores};

use crate::settling::Settled;
use crate::telling::{tell_ok, tell_refusal};
use crate::transactions::Transactions;
use hs_ast::Modes;
use hs_base::{NoMemory, SessionNo};
use hs_lines::Words;
use hs_log::Batch;
use hs_queue::Entry;
use hs_seams::{Attempted, Store};
use hs_sessions::Control;

impl<S: Store + Drop> Transactions<S> {
    // COMMIT. An `Err` is want of memory.
    pub(crate) fn commit(
        &mut self,
        session: SessionNo,
        told: &mut Vec<Words>,
        made: &mut Batch,
    ) -> Result<Attempted, NoMemory>
        requires here { IsHere (parts_of self.old) session.0 }
        requires fits { (w : World) × (k : Kept) × Fits (IsStores S.stands) (parts_of self.old) w k }
        ensures { (w : World) (m : Machine) → Fits (IsStores S.stands) (parts_of self.old) w (kept_of (side_of m))
            → IfOk result (λ r. Moves (IsStores S.stands) w m (attempt_commit w.run.dialect w.run.opening w.run.made (open_of m session.0) session.0 m) (parts_of self.new) r told.old.items told.new.items made.old made.new) }
    {
        if self.holding.is_open(session) {
            return self.commit_open(session, told, made);
        }
        tell_ok(self.alloc, told, None)?;
        Ok(Attempted {
            is_final: true,
            has_ended: false,
        })
    }

    // The same, where a transaction is open. An `Err` is want of memory.
    fn commit_open(
        &mut self,
        session: SessionNo,
        told: &mut Vec<Words>,
        made: &mut Batch,
    ) -> Result<Attempted, NoMemory>
        requires here { IsHere (parts_of self.old) session.0 }
        requires fits { (w : World) × (k : Kept) × Fits (IsStores S.stands) (parts_of self.old) w k }
        requires opened { is_open_at self.old.holding session.0 ≡ true }
        ensures { (w : World) (m : Machine) → Fits (IsStores S.stands) (parts_of self.old) w (kept_of (side_of m))
            → IfOk result (λ r. Moves (IsStores S.stands) w m (attempt_commit w.run.dialect w.run.opening w.run.made (open_of m session.0) session.0 m) (parts_of self.new) r told.old.items told.new.items made.old made.new) }
    {
        self.seat_for_commit(session)?;
        match self.settle(session, made)? {
            Settled::Unchanged => {
                self.leave(session)?;
                tell_ok(self.alloc, told, None)?;
                Ok(Attempted {
                    is_final: true,
                    has_ended: true,
                })
            }
            Settled::Committed(number) => {
                tell_ok(self.alloc, told, Some(number))?;
                Ok(Attempted {
                    is_final: true,
                    has_ended: true,
                })
            }
            Settled::TooManyChanges => {
                tell_refusal(self.alloc, told, "changes")?;
                Ok(Attempted {
                    is_final: true,
                    has_ended: false,
                })
            }
            Settled::LogFull => {
                tell_refusal(self.alloc, told, "log full")?;
                Ok(Attempted {
                    is_final: true,
                    has_ended: false,
                })
            }
        }
    }

    // ROLLBACK. An `Err` is want of memory.
    pub(crate) fn roll_back(
        &mut self,
        session: SessionNo,
        told: &mut Vec<Words>,
    ) -> Result<Attempted, NoMemory>
        requires here { IsHere (parts_of self.old) session.0 }
        requires fits { (w : World) × (k : Kept) × Fits (IsStores S.stands) (parts_of self.old) w k }
        ensures { (w : World) (m : Machine) → Fits (IsStores S.stands) (parts_of self.old) w (kept_of (side_of m))
            → IfOk result (λ r. Moves (IsStores S.stands) w m (attempt_rollback w.run.dialect w.run.opening w.run.made (is_open m session.0) session.0 m) (parts_of self.new) r told.old.items told.new.items [] []) }
    {
        tell_ok(self.alloc, told, None)?;
        if !self.holding.is_open(session) {
            return Ok(Attempted {
                is_final: true,
                has_ended: false,
            });
        }
        self.leave(session)?;
        Ok(Attempted {
            is_final: true,
            has_ended: true,
        })
    }

    // START TRANSACTION with these modes. An `Err` is want of memory.
    pub(crate) fn start(
        &mut self,
        entry: &Entry,
        modes: Modes,
        told: &mut Vec<Words>,
    ) -> Result<Attempted, NoMemory>
        requires here { IsHere (parts_of self.old) entry.now.session.0 }
        requires fits { (w : World) × (k : Kept) × Fits (IsStores S.stands) (parts_of self.old) w k }
        ensures { (w : World) (m : Machine) → Fits (IsStores S.stands) (parts_of self.old) w (kept_of (side_of m)) → w.run.dialect.request (entry_of entry.now).text ≡ request.Starts modes
            → IfOk result (λ r. Moves (IsStores S.stands) w m (attempt_start w.run.dialect w.run.opening w.run.made (is_open m entry.now.session.0) modes (entry_of entry.now) m) (parts_of self.new) r told.old.items told.new.items [] []) }
    {
        if self.holding.is_open(entry.session) {
            return self.refuse(entry, "open transaction", told);
        }
        self.begin_with(entry.session, modes)?;
        tell_ok(self.alloc, told, None)?;
        Ok(Attempted {
            is_final: true,
            has_ended: false,
        })
    }

    // Begins a transaction with these modes, where none is open. An `Err` is want of memory.
    fn begin_with(&mut self, session: SessionNo, modes: Modes) -> Result<(), NoMemory>
        requires here { IsHere (parts_of self.old) session.0 }
        requires shut { is_open_at self.old.holding session.0 ≡ false }
        ensures { (w : World) (m : Machine) → Fits (IsStores S.stands) (parts_of self.old) w (kept_of (side_of m)) → OnOk result (Fits (IsStores S.stands) (parts_of self.new) w (opened session.0 false (kept_of (side_of (named w.run.dialect w.run.opening w.run.made modes session.0 m))))) }
    {
        let control = Control::Transaction(modes);
        self.holding.control(session, &control, self.alloc)?;
        self.begin(session, false)?;
        Ok(())
    }
}
