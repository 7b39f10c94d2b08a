// Definitions: changes of the catalogue and of the database's settings.
ghost use Rattle.std.specs.Prelude.{◌≡◌, ℕ, [], true, Ok, IfOk};
ghost use Rattle.hs_claims.specs.Blockers.{has};
ghost use Rattle.hs_claims.specs.Session.{IsSession};
ghost use Rattle.hs_holding.specs.Held.{is_open_at};
ghost use Rattle.hs_queue.specs.Entries.{entry_of};
ghost use Rattle.hs_seams.specs.Calls.{IsEntry};
ghost use Rattle.hs_seams.specs.Stores.{present};
ghost use Rattle.hs_seams.specs.World.{World};
ghost use Rattle.hs_turns.specs.Attempts.{attempt_definition, bound_definition, defined, defining};
ghost use Rattle.hs_turns.specs.Dialect.{Request as request};
ghost use Rattle.hs_turns.specs.Machine.{Machine};
ghost use Rattle.hs_controls.specs.Sights.{IsQuiet};
ghost use Rattle.hs_moves.specs.Fits.{IsHere};
ghost use Rattle.hs_moves.specs.Moves.{Moves};
ghost use Rattle.hs_moves.specs.Parts.{Parts};
ghost use Rattle.hs_transactions.specs.Parts.{parts_of};
ghost use Rattle.hs_transactions.specs.Standing.{IsAt};
ghost use Rattle.hs_snapshots.specs.Stores.{IsStores};

use crate::settling::Settled;
use crate::telling::{tell_deadlock, tell_ok, tell_refusal};
use crate::transactions::Transactions;
use hs_ast::Stmt;
use hs_base::{CommitNo, NoMemory};
use hs_claims::Blockers;
use hs_lines::{Names, Words};
use hs_log::Batch;
use hs_plan::Definition;
use hs_queue::Entry;
use hs_seams::{Attempted, Store};

impl<S: Store + Drop> Transactions<S> {
    // Attempts a definition. An `Err` is want of memory.
    pub(crate) fn run_definition(
        &mut self,
        is_first: bool,
        entry: &Entry,
        statement: &Stmt,
        names: &Names,
        told: &mut Vec<Words>,
        made: &mut Batch,
    ) -> Result<Attempted, NoMemory>
        requires here { IsHere (parts_of self.old) entry.now.session.0 }
        requires at { (w : World) × (m : Machine) × IsAt (IsStores S.stands) (parts_of self.old) w m }
        requires entry { IsEntry entry.now }
        requires tree { S.is_read statement.now (entry_of entry.now).text }
        ensures { (w : World) (m : Machine) → IsAt (IsStores S.stands) (parts_of self.old) w m → m.names ≡ names.now → w.run.dialect.request (entry_of entry.now).text ≡ request.OfDefinition
            → IfOk result (λ r. Moves (IsStores S.stands) w m (attempt_definition w.run.dialect w.run.opening w.run.made is_first (entry_of entry.now) m) (parts_of self.new) r told.old.items told.new.items made.old made.new) }
    {
        self.seat(entry.session)?;
        let own = self.holding.own(entry.session, self.kind);
        match self.stores.refusal(entry, statement, own.read_only)? {
            Some(why) => self.refuse(entry, why.as_str(), told),
            None => self.bind(is_first, entry, statement, names, told, made),
        }
    }

    // A definition that isn't refused at once, whose session is seated. An `Err` is want of memory.
    fn bind(
        &mut self,
        is_first: bool,
        entry: &Entry,
        statement: &Stmt,
        names: &Names,
        told: &mut Vec<Words>,
        made: &mut Batch,
    ) -> Result<Attempted, NoMemory>
        requires here { IsHere (parts_of self.old) entry.now.session.0 }
        requires at { (w : World) × (m : Machine) × IsAt (IsStores S.stands) (parts_of self.old) w m }
        requires seated { self.old.seated.0 ≡ entry.now.session.0 }
        requires entry { IsEntry entry.now }
        requires tree { S.is_read statement.now (entry_of entry.now).text }
        ensures { (w : World) (m : Machine) → IsAt (IsStores S.stands) (parts_of self.old) w m → m.names ≡ names.now → w.run.dialect.request (entry_of entry.now).text ≡ request.OfDefinition
            → IfOk result (λ r. Moves (IsStores S.stands) w m (bound_definition w.run.dialect w.run.opening w.run.made is_first (entry_of entry.now) m) (parts_of self.new) r told.old.items told.new.items made.old made.new) }
    {
        if !is_first {
            return self.define_or_wait(entry, statement, names, told, made);
        }
        if self.holding.is_open(entry.session) {
            return self.commit_first(entry, statement, names, told, made);
        }
        self.define_or_wait(entry, statement, names, told, made)
    }

    // Commits the open transaction of a definition's session first. An `Err` is want of memory.
    fn commit_first(
        &mut self,
        entry: &Entry,
        statement: &Stmt,
        names: &Names,
        told: &mut Vec<Words>,
        made: &mut Batch,
    ) -> Result<Attempted, NoMemory>
        requires here { IsHere (parts_of self.old) entry.now.session.0 }
        requires at { (w : World) × (m : Machine) × IsAt (IsStores S.stands) (parts_of self.old) w m }
        requires seated { self.old.seated.0 ≡ entry.now.session.0 }
        requires opened { is_open_at self.old.holding entry.now.session.0 ≡ true }
        requires entry { IsEntry entry.now }
        requires tree { S.is_read statement.now (entry_of entry.now).text }
        ensures { (w : World) (m : Machine) → IsAt (IsStores S.stands) (parts_of self.old) w m → m.names ≡ names.now → w.run.dialect.request (entry_of entry.now).text ≡ request.OfDefinition
            → IfOk result (λ r. Moves (IsStores S.stands) w m (bound_definition w.run.dialect w.run.opening w.run.made true (entry_of entry.now) m) (parts_of self.new) r told.old.items told.new.items made.old made.new) }
    {
        self.seat_for_commit(entry.session)?;
        match self.settle(entry.session, made)? {
            Settled::Unchanged => {
                self.leave(entry.session)?;
                let behind = self.define_or_wait(entry, statement, names, told, made)?;
                Ok(Attempted {
                    is_final: behind.is_final,
                    has_ended: true,
                })
            }
            Settled::Committed(number) => {
                told.push(Words::First(number))?;
                let behind = self.define_or_wait(entry, statement, names, told, made)?;
                Ok(Attempted {
                    is_final: behind.is_final,
                    has_ended: true,
                })
            }
            Settled::TooManyChanges => {
                tell_refusal(self.alloc, told, "changes")?;
                Ok(Attempted {
                    is_final: true,
                    has_ended: false,
                })
            }
            Settled::LogFull => {
                tell_refusal(self.alloc, told, "log full")?;
                Ok(Attempted {
                    is_final: true,
                    has_ended: false,
                })
            }
        }
    }

    // A definition is made where no transaction is open, and else held up by all of them. An `Err` is want of memory.
    fn define_or_wait(
        &mut self,
        entry: &Entry,
        statement: &Stmt,
        names: &Names,
        told: &mut Vec<Words>,
        made: &mut Batch,
    ) -> Result<Attempted, NoMemory>
        requires here { IsHere (parts_of self.old) entry.now.session.0 }
        requires at { (w : World) × (m : Machine) × IsAt (IsStores S.stands) (parts_of self.old) w m }
        requires entry { IsEntry entry.now }
        requires tree { S.is_read statement.now (entry_of entry.now).text }
        ensures { (w : World) (m : Machine) → IsAt (IsStores S.stands) (parts_of self.old) w m → m.names ≡ names.now → w.run.dialect.request (entry_of entry.now).text ≡ request.OfDefinition
            → IfOk result (λ r. Moves (IsStores S.stands) w m (defining w.run.dialect w.run.opening w.run.made m.history.open_ [] (entry_of entry.now) m) (parts_of self.new) r told.old.items told.new.items made.old made.new) }
    {
        let holders = self.holding.open_sessions();
        if holders.is_empty() {
            return self.define(entry, statement, told, made);
        }
        self.hold_up_definition(entry, holders, names, told)
    }

    // A definition waits for these sessions, which have a transaction open. Where waits lead back to its own session from one
    // of them, it is refused. An `Err` is want of memory.
    fn hold_up_definition(
        &mut self,
        entry: &Entry,
        holders: Blockers,
        names: &Names,
        told: &mut Vec<Words>,
    ) -> Result<Attempted, NoMemory>
        requires { IsHere (parts_of self.old) entry.now.session.0 }
        ensures { (w : World) (m : Machine) → IsAt (IsStores S.stands) (parts_of self.old) w m → m.names ≡ names.now → ((b : ℕ) → IsSession b → has holders b ≡ is_open_at self.old.holding b) → (IsQuiet self.old.holding → ⊥)
            → IfOk result (λ r. Moves (IsStores S.stands) w m (defining w.run.dialect w.run.opening w.run.made m.history.open_ [] (entry_of entry.now) m) (parts_of self.new) r told.old.items told.new.items [] []) }
    {
        match self.holding.leading_back(entry.session, holders) {
            Some(back) => {
                tell_deadlock(self.alloc, told, names, back)?;
                Ok(Attempted {
                    is_final: true,
                    has_ended: false,
                })
            }
            None => {
                self.holding.wait(entry.session, holders);
                told.push(Words::WaitsFor(holders))?;
                Ok(Attempted {
                    is_final: false,
                    has_ended: false,
                })
            }
        }
    }

    // Makes a definition, where no transaction is open, unless it is refused. An `Err` is want of memory.
    fn define(
        &mut self,
        entry: &Entry,
        statement: &Stmt,
        told: &mut Vec<Words>,
        made: &mut Batch,
    ) -> Result<Attempted, NoMemory>
        requires here { IsHere (parts_of self.old) entry.now.session.0 }
        requires at { (w : World) × (m : Machine) × IsAt (IsStores S.stands) (parts_of self.old) w m }
        requires quiet { IsQuiet self.old.holding }
        requires entry { IsEntry entry.now }
        requires tree { S.is_read statement.now (entry_of entry.now).text }
        ensures { (w : World) (m : Machine) → IsAt (IsStores S.stands) (parts_of self.old) w m → w.run.dialect.request (entry_of entry.now).text ≡ request.OfDefinition
            → IfOk result (λ r. Moves (IsStores S.stands) w m (defined w.run.dialect w.run.opening w.run.made (w.run.dialect.definition (present w m.history.commits) (entry_of entry.now).text) [] (entry_of entry.now) m) (parts_of self.new) r told.old.items told.new.items made.old made.new) }
    {
        match self.stores.definition(entry, statement)? {
            Ok(definition) => self.commit_definition(entry, definition, told, made),
            Err(why) => {
                tell_refusal(self.alloc, told, why.as_str())?;
                Ok(Attempted {
                    is_final: true,
                    has_ended: false,
                })
            }
        }
    }

    // Commits what an entry defines, where it finds room. An `Err` is want of memory.
    fn commit_definition(
        &mut self,
        entry: &Entry,
        definition: Definition,
        told: &mut Vec<Words>,
        made: &mut Batch,
    ) -> Result<Attempted, NoMemory>
        requires here { IsHere (parts_of self.old) entry.now.session.0 }
        requires at { (w : World) × (m : Machine) × (IsAt (IsStores S.stands) (parts_of self.old) w m × (w.run.dialect.definition (present w m.history.commits) (entry_of entry.now).text ≡ Ok definition)) }
        requires quiet { IsQuiet self.old.holding }
        ensures { (w : World) (m : Machine) → IsAt (IsStores S.stands) (parts_of self.old) w m → w.run.dialect.request (entry_of entry.now).text ≡ request.OfDefinition → w.run.dialect.definition (present w m.history.commits) (entry_of entry.now).text ≡ Ok definition
            → IfOk result (λ r. Moves (IsStores S.stands) w m (defined w.run.dialect w.run.opening w.run.made (w.run.dialect.definition (present w m.history.commits) (entry_of entry.now).text) [] (entry_of entry.now) m) (parts_of self.new) r told.old.items told.new.items made.old made.new) }
    {
        if !self.stores.has_room(1) {
            tell_refusal(self.alloc, told, "changes")?;
            return Ok(Attempted {
                is_final: true,
                has_ended: false,
            });
        }
        if !self.stores.define(entry.session, definition, made)? {
            tell_refusal(self.alloc, told, "log full")?;
            return Ok(Attempted {
                is_final: true,
                has_ended: false,
            });
        }
        self.commits += 1;
        self.count += 1;
        self.kind = self.stores.control();
        self.past.forget(self.count);
        tell_ok(self.alloc, told, Some(CommitNo(self.commits)))?;
        Ok(Attempted {
            is_final: true,
            has_ended: false,
        })
    }
}
