// Statements that conflict with commits since the start of their transaction.
ghost use Rattle.std.specs.Prelude.{◌≡◌, ◌+◌, ◌-◌, ◌<◌, ◌≤◌, ◌^◌, [], Some, drop, length, IfOk, IfSome};
ghost use Rattle.hs_claims.specs.Wants.{wants_of};
ghost use Rattle.hs_conflicts.specs.Conflicts.{conflict_from};
ghost use Rattle.hs_queue.specs.Entries.{entry_of};
ghost use Rattle.hs_seams.specs.World.{World};
ghost use Rattle.hs_seams.specs.declared.outcome.Outcome.{Outcome};
ghost use Rattle.hs_turns.specs.Attempts.{attempt_data};
ghost use Rattle.hs_turns.specs.Machine.{Machine};
ghost use Rattle.hs_moves.specs.Evaluated.{IsUnblocked, data_outcome};
ghost use Rattle.hs_moves.specs.Fits.{IsHere};
ghost use Rattle.hs_moves.specs.Moves.{Moves};
ghost use Rattle.hs_moves.specs.Parts.{Parts};
ghost use Rattle.hs_snapshots.specs.Stores.{IsStores};
ghost use Rattle.hs_transactions.specs.Judged.{IsConflict, IsEvaluated, conflict_since};
ghost use Rattle.hs_transactions.specs.Parts.{parts_of};

use crate::telling::tell_conflict;
use crate::transactions::Transactions;
use hs_base::{CommitNo, NoMemory};
use hs_claims::{Claims, Level};
use hs_holding::Own;
use hs_lines::Words;
use hs_queue::Entry;
use hs_seams::{Attempted, Store};

impl<S: Store + Drop> Transactions<S> {
    // The first commit since the start of an entry's transaction at snapshot isolation that has a claim which doesn't go together
    // with what its statement wants. Takes no memory.
    pub(crate) fn conflict(&self, entry: &Entry, own: Own, wanted: &Claims) -> Option<CommitNo>
        requires here { IsHere (parts_of self.now) entry.now.session.0 }
        requires at { (w : World) × (m : Machine) × (o : Outcome) × (IsEvaluated (IsStores S.stands) (parts_of self.now) w m (entry_of entry.now) own o × (wanted.now ≡ wants_of self.now.kind own.level own.read_only o.foot)) }
        ensures { (w : World) (m : Machine) (o : Outcome) → IsEvaluated (IsStores S.stands) (parts_of self.now) w m (entry_of entry.now) own o → wanted.now ≡ wants_of self.now.kind own.level own.read_only o.foot → IsConflict w m (entry_of entry.now) result }
    {
        if own.read_only {
            return None;
        }
        match own.level {
            Level::Rc => None,
            Level::Ser => None,
            Level::Snap => self.conflict_since(self.holding.start(entry.session), wanted),
        }
    }

    // The same, for a transaction that began behind so many commits of the run, or that begins now. Takes no memory.
    fn conflict_since(&self, start: Option<CommitNo>, wanted: &Claims) -> Option<CommitNo>
        requires first { IfSome start (λ n. self.now.past.first ≤ n.0) }
        requires few { self.now.past.first + length self.now.past.claims.items ≤ 2 ^ 48 }
        requires number { IfSome start (λ n. IfSome (conflict_from wanted.now n.0 (drop (n.0 - self.now.past.first) self.now.past.claims.items)) (λ number. self.now.made + number < 2 ^ 64)) }
        ensures { result ≡ conflict_since self.now.made self.now.past.first self.now.past.claims.items start wanted.now }
    {
        match start {
            None => None,
            Some(start) => match self.past.conflict(start.0, wanted) {
                None => None,
                Some(number) => Some(CommitNo(self.made + number)),
            },
        }
    }

    // A data statement that conflicts with a commit is refused, and its transaction ends. An `Err` is want of memory.
    pub(crate) fn conflict_with(
        &mut self,
        entry: &Entry,
        own: Own,
        number: CommitNo,
        told: &mut Vec<Words>,
    ) -> Result<Attempted, NoMemory>
        requires here { IsHere (parts_of self.old) entry.now.session.0 }
        requires at { (w : World) × (m : Machine) × (o : Outcome) × IsEvaluated (IsStores S.stands) (parts_of self.old) w m (entry_of entry.now) own o }
        ensures { (w : World) (m : Machine) (o : Outcome) → IsEvaluated (IsStores S.stands) (parts_of self.old) w m (entry_of entry.now) own o → IsUnblocked w m (entry_of entry.now) (data_outcome w m (entry_of entry.now)).foot → IsConflict w m (entry_of entry.now) (Some number)
            → IfOk result (λ r. Moves (IsStores S.stands) w m (attempt_data w.run.dialect w.run.opening w.run.made (entry_of entry.now) m) (parts_of self.new) r told.old.items told.new.items [] []) }
    {
        self.withdraw(entry.session, own.auto)?;
        self.leave(entry.session)?;
        tell_conflict(self.alloc, told, number)?;
        Ok(Attempted {
            is_final: true,
            has_ended: true,
        })
    }
}
