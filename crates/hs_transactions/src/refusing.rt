// Entries that are refused where they stand.
ghost use Rattle.std.specs.Prelude.{◌≡◌, ◌&&◌, [], IfOk};
ghost use Rattle.hs_holding.specs.Held.{IsSeat, is_open_at, seat_of};
ghost use Rattle.hs_holding.specs.Seats.{own_in};
ghost use Rattle.hs_queue.specs.Entries.{entry_of};
ghost use Rattle.hs_seams.specs.World.{World};
ghost use Rattle.hs_sides.specs.Sides.{side_of};
ghost use Rattle.hs_tied.specs.Kept.{Kept};
ghost use Rattle.hs_turns.specs.Attempts.{refused_in_place};
ghost use Rattle.hs_turns.specs.Machine.{Machine};
ghost use Rattle.hs_moves.specs.Fits.{Fits, IsHere, kept_of};
ghost use Rattle.hs_moves.specs.Moves.{Moves};
ghost use Rattle.hs_moves.specs.Parts.{Parts};
ghost use Rattle.hs_moves.specs.Refused.{IsRefused};
ghost use Rattle.hs_transactions.specs.Parts.{parts_of};
ghost use Rattle.hs_snapshots.specs.Stores.{IsStores};

use crate::telling::tell_refusal;
use crate::transactions::Transactions;
use hs_base::{NoMemory, SessionNo};
use hs_lines::Words;
use hs_queue::Entry;
use hs_seams::{Attempted, Store};

impl<S: Store + Drop> Transactions<S> {
    // Whether a transaction of a session is open that ends with its first statement.
    fn is_single(&self, session: SessionNo) -> bool
        requires { IsSeat self.now.holding session.0 }
        ensures { result ≡ (is_open_at self.now.holding session.0 && (own_in self.now.kind (seat_of self.now.holding session.0)).auto) }
    {
        if self.holding.is_open(session) {
            return self.holding.own(session, self.kind).auto;
        }
        false
    }

    // An entry is refused for this reason. A transaction that ends with its first statement ends. An `Err` is want of memory.
    pub(crate) fn refuse(
        &mut self,
        entry: &Entry,
        why: &str,
        told: &mut Vec<Words>,
    ) -> Result<Attempted, NoMemory>
        requires here { IsHere (parts_of self.old) entry.now.session.0 }
        requires fits { (w : World) × (k : Kept) × Fits (IsStores S.stands) (parts_of self.old) w k }
        ensures { (w : World) (m : Machine) → Fits (IsStores S.stands) (parts_of self.old) w (kept_of (side_of m)) → IsRefused w m (entry_of entry.now) why.now
            → IfOk result (λ r. Moves (IsStores S.stands) w m (refused_in_place w.run.dialect w.run.opening w.run.made (entry_of entry.now) why.now m) (parts_of self.new) r told.old.items told.new.items [] []) }
    {
        tell_refusal(self.alloc, told, why)?;
        if self.is_single(entry.session) {
            self.leave(entry.session)?;
            return Ok(Attempted {
                is_final: true,
                has_ended: true,
            });
        }
        Ok(Attempted {
            is_final: true,
            has_ended: false,
        })
    }
}
