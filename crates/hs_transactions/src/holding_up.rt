// Statements that other sessions are in the way of.
ghost use Rattle.std.specs.Prelude.{◌≡◌, [], IfOk};
ghost use Rattle.hs_queue.specs.Entries.{entry_of};
ghost use Rattle.hs_seams.specs.World.{World};
ghost use Rattle.hs_seams.specs.declared.outcome.Outcome.{Outcome};
ghost use Rattle.hs_turns.specs.Attempts.{attempt_data};
ghost use Rattle.hs_turns.specs.Machine.{Machine};
ghost use Rattle.hs_moves.specs.Evaluated.{IsBlocked};
ghost use Rattle.hs_moves.specs.Fits.{IsHere};
ghost use Rattle.hs_moves.specs.Moves.{Moves};
ghost use Rattle.hs_moves.specs.Parts.{Parts};
ghost use Rattle.hs_transactions.specs.Judged.{AreBlockers, IsEvaluated};
ghost use Rattle.hs_transactions.specs.Parts.{parts_of};
ghost use Rattle.hs_snapshots.specs.Stores.{IsStores};

use crate::telling::tell_deadlock;
use crate::transactions::Transactions;
use hs_base::NoMemory;
use hs_claims::Blockers;
use hs_holding::Own;
use hs_lines::{Names, Words};
use hs_queue::Entry;
use hs_seams::{Attempted, Store};

impl<S: Store + Drop> Transactions<S> {
    // A data statement waits for the sessions that are in its way, without its changes. Where waits lead back to its own
    // session from one of them, it is refused, and its transaction ends. An `Err` is want of memory.
    pub(crate) fn hold_up(
        &mut self,
        entry: &Entry,
        own: Own,
        blockers: Blockers,
        names: &Names,
        told: &mut Vec<Words>,
    ) -> Result<Attempted, NoMemory>
        requires here { IsHere (parts_of self.old) entry.now.session.0 }
        requires at { (w : World) × (m : Machine) × (o : Outcome) × IsEvaluated (IsStores S.stands) (parts_of self.old) w m (entry_of entry.now) own o }
        ensures { (w : World) (m : Machine) (o : Outcome) → IsEvaluated (IsStores S.stands) (parts_of self.old) w m (entry_of entry.now) own o → AreBlockers self.old.kind self.old.holding entry.now.session.0 own o blockers → IsBlocked w m (entry_of entry.now) → m.names ≡ names.now
            → IfOk result (λ r. Moves (IsStores S.stands) w m (attempt_data w.run.dialect w.run.opening w.run.made (entry_of entry.now) m) (parts_of self.new) r told.old.items told.new.items [] []) }
    {
        self.withdraw(entry.session, own.auto)?;
        match self.holding.leading_back(entry.session, blockers) {
            Some(back) => {
                self.leave(entry.session)?;
                tell_deadlock(self.alloc, told, names, back)?;
                Ok(Attempted {
                    is_final: true,
                    has_ended: true,
                })
            }
            None => {
                self.holding.wait(entry.session, blockers);
                told.push(Words::WaitsFor(blockers))?;
                Ok(Attempted {
                    is_final: false,
                    has_ended: false,
                })
            }
        }
    }
}
