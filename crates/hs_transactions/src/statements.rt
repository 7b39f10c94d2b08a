// Queries, changes of rows, and LOCK TABLE.
ghost use Rattle.std.specs.Prelude.{◌≡◌, true, IfOk};
ghost use Rattle.hs_queue.specs.Entries.{entry_of};
ghost use Rattle.hs_seams.specs.Calls.{IsEntry};
ghost use Rattle.hs_seams.specs.World.{World};
ghost use Rattle.hs_turns.specs.Attempts.{attempt_data};
ghost use Rattle.hs_turns.specs.Dialect.{Request as request};
ghost use Rattle.hs_turns.specs.Machine.{Machine};
ghost use Rattle.hs_moves.specs.Evaluated.{IsUnblocked, data_outcome, data_own, is_clear};
ghost use Rattle.hs_moves.specs.Fits.{IsHere};
ghost use Rattle.hs_moves.specs.Moves.{Moves};
ghost use Rattle.hs_moves.specs.Parts.{Parts};
ghost use Rattle.hs_transactions.specs.Judged.{HasGone, IsEvaluated};
ghost use Rattle.hs_transactions.specs.Parts.{parts_of};
ghost use Rattle.hs_transactions.specs.Standing.{IsAt};
ghost use Rattle.hs_snapshots.specs.Stores.{IsStores};

use crate::settling::Settled;
use crate::telling::{tell_outcome, tell_refusal};
use crate::transactions::Transactions;
use hs_ast::Stmt;
use hs_base::NoMemory;
use hs_holding::Own;
use hs_lines::{Names, Words};
use hs_log::Batch;
use hs_models::{keeps, wants};
use hs_queue::Entry;
use hs_seams::{Attempted, Outcome, Store};
use hs_values::Chars;

impl<S: Store + Drop> Transactions<S> {
    // Attempts a data statement. An `Err` is want of memory.
    pub(crate) fn run_data(
        &mut self,
        entry: &Entry,
        statement: &Stmt,
        names: &Names,
        told: &mut Vec<Words>,
        made: &mut Batch,
    ) -> Result<Attempted, NoMemory>
        requires here { IsHere (parts_of self.old) entry.now.session.0 }
        requires at { (w : World) × (m : Machine) × (IsAt (IsStores S.stands) (parts_of self.old) w m × (w.run.dialect.request (entry_of entry.now).text ≡ request.OfData)) }
        requires entry { IsEntry entry.now }
        requires tree { S.is_read statement.now (entry_of entry.now).text }
        ensures { (w : World) (m : Machine) → IsAt (IsStores S.stands) (parts_of self.old) w m → m.names ≡ names.now → w.run.dialect.request (entry_of entry.now).text ≡ request.OfData
            → IfOk result (λ r. Moves (IsStores S.stands) w m (attempt_data w.run.dialect w.run.opening w.run.made (entry_of entry.now) m) (parts_of self.new) r told.old.items told.new.items made.old made.new) }
    {
        self.seat(entry.session)?;
        let own = self.holding.own(entry.session, self.kind);
        match self.stores.evaluate(entry, statement, own.read_only)? {
            Ok(outcome) => self.judge(entry, own, outcome, names, told, made),
            Err(why) => self.refuse(entry, why.as_str(), told),
        }
    }

    // A statement that was evaluated goes on where nobody is in its way, and else it is held up. An `Err` is want of memory.
    fn judge(
        &mut self,
        entry: &Entry,
        own: Own,
        outcome: Outcome,
        names: &Names,
        told: &mut Vec<Words>,
        made: &mut Batch,
    ) -> Result<Attempted, NoMemory>
        requires here { IsHere (parts_of self.old) entry.now.session.0 }
        requires at { (w : World) × (m : Machine) × IsEvaluated (IsStores S.stands) (parts_of self.old) w m (entry_of entry.now) own outcome }
        ensures { (w : World) (m : Machine) → IsEvaluated (IsStores S.stands) (parts_of self.old) w m (entry_of entry.now) own outcome → m.names ≡ names.now
            → IfOk result (λ r. Moves (IsStores S.stands) w m (attempt_data w.run.dialect w.run.opening w.run.made (entry_of entry.now) m) (parts_of self.new) r told.old.items told.new.items made.old made.new) }
    {
        let wanted = wants(
            self.alloc,
            self.kind,
            own.level,
            own.read_only,
            &outcome.foot,
        )?;
        let blockers = self.holding.blockers(entry.session, &wanted);
        if !blockers.is_empty() {
            return self.hold_up(entry, own, blockers, names, told);
        }
        match self.conflict(entry, own, &wanted) {
            Some(number) => self.conflict_with(entry, own, number, told),
            None => self.go_on(entry, own, outcome, told, made),
        }
    }

    // A statement goes on: its transaction has its changes and its claims. An `Err` is want of memory.
    fn go_on(
        &mut self,
        entry: &Entry,
        own: Own,
        outcome: Outcome,
        told: &mut Vec<Words>,
        made: &mut Batch,
    ) -> Result<Attempted, NoMemory>
        requires here { IsHere (parts_of self.old) entry.now.session.0 }
        requires at { (w : World) × (m : Machine) × (IsEvaluated (IsStores S.stands) (parts_of self.old) w m (entry_of entry.now) own outcome × IsUnblocked w m (entry_of entry.now) (data_outcome w m (entry_of entry.now)).foot × (is_clear w m (entry_of entry.now) ≡ true)) }
        ensures { (w : World) (m : Machine) → IsEvaluated (IsStores S.stands) (parts_of self.old) w m (entry_of entry.now) own outcome → IsUnblocked w m (entry_of entry.now) (data_outcome w m (entry_of entry.now)).foot → is_clear w m (entry_of entry.now) ≡ true
            → IfOk result (λ r. Moves (IsStores S.stands) w m (attempt_data w.run.dialect w.run.opening w.run.made (entry_of entry.now) m) (parts_of self.new) r told.old.items told.new.items made.old made.new) }
    {
        let Outcome {
            rows,
            reply,
            changes,
            foot,
        } = outcome;
        let keeps = keeps(self.alloc, self.kind, own.level, own.read_only, &foot)?;
        self.begin(entry.session, own.auto)?;
        self.holding.add(entry.session, changes, keeps, self.alloc)?;
        if own.auto {
            return self.end_single(entry, rows, reply, told, made);
        }
        tell_outcome(told, rows, reply, None)?;
        Ok(Attempted {
            is_final: true,
            has_ended: false,
        })
    }

    // The transaction of a statement ends with it: it is committed where it finds room. An `Err` is want of memory.
    fn end_single(
        &mut self,
        entry: &Entry,
        rows: Vec<Chars>,
        reply: Chars,
        told: &mut Vec<Words>,
        made: &mut Batch,
    ) -> Result<Attempted, NoMemory>
        requires here { IsHere (parts_of self.old) entry.now.session.0 }
        requires at { (w : World) × (m : Machine) × HasGone (IsStores S.stands) (parts_of self.old) w m (entry_of entry.now) rows.items reply }
        ensures { (w : World) (m : Machine) → HasGone (IsStores S.stands) (parts_of self.old) w m (entry_of entry.now) rows.items reply → (data_own w m (entry_of entry.now)).auto ≡ true
            → IfOk result (λ r. Moves (IsStores S.stands) w m (attempt_data w.run.dialect w.run.opening w.run.made (entry_of entry.now) m) (parts_of self.new) r told.old.items told.new.items made.old made.new) }
    {
        self.seat_for_commit(entry.session)?;
        match self.settle(entry.session, made)? {
            Settled::Unchanged => {
                self.leave(entry.session)?;
                tell_outcome(told, rows, reply, None)?;
                Ok(Attempted {
                    is_final: true,
                    has_ended: true,
                })
            }
            Settled::Committed(number) => {
                tell_outcome(told, rows, reply, Some(number))?;
                Ok(Attempted {
                    is_final: true,
                    has_ended: true,
                })
            }
            Settled::TooManyChanges => {
                self.leave(entry.session)?;
                tell_refusal(self.alloc, told, "changes")?;
                Ok(Attempted {
                    is_final: true,
                    has_ended: true,
                })
            }
            Settled::LogFull => {
                self.leave(entry.session)?;
                tell_refusal(self.alloc, told, "log full")?;
                Ok(Attempted {
                    is_final: true,
                    has_ended: true,
                })
            }
        }
    }
}
