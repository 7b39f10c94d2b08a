// What the turns of a run ask of it.
ghost use Rattle.std.specs.Prelude.{◌≡◌, length, IfOk};
ghost use Rattle.hs_claims.specs.Session.{IsSession};
ghost use Rattle.hs_holding.specs.Held.{IsNumber};
ghost use Rattle.hs_lines.specs.Names.{IsKnown};
ghost use Rattle.hs_queue.specs.Entries.{entry_of};
ghost use Rattle.hs_seams.specs.Calls.{AreNamed, IsEntry};
ghost use Rattle.hs_seams.specs.World.{World};
ghost use Rattle.hs_sides.specs.Sides.{Side, answered_by, side_of};
ghost use Rattle.hs_turns.specs.Attempts.{attempt};
ghost use Rattle.hs_turns.specs.Machine.{Machine};
ghost use Rattle.hs_moves.specs.Fits.{Fits, IsHere, kept_of};
ghost use Rattle.hs_moves.specs.Moves.{Moves};
ghost use Rattle.hs_moves.specs.Parts.{Parts};
ghost use Rattle.hs_transactions.specs.Parts.{parts_of};
ghost use Rattle.hs_transactions.specs.Standing.{IsAt};
ghost use Rattle.hs_snapshots.specs.Stores.{IsStores};

use crate::transactions::Transactions;
use hs_base::{NoMemory, SessionNo};
use hs_lines::{Names, Words};
use hs_log::Batch;
use hs_queue::Entry;
use hs_seams::{Asked, Attempted, Engine, Store};

impl<S: Store + Drop> Transactions<S> {
    // Reads an entry and attempts what it asks for. An `Err` is want of memory.
    fn run(
        &mut self,
        is_first: bool,
        entry: &Entry,
        names: &Names,
        told: &mut Vec<Words>,
        made: &mut Batch,
    ) -> Result<Attempted, NoMemory>
        requires here { IsHere (parts_of self.old) entry.now.session.0 }
        requires at { (w : World) × (m : Machine) × IsAt (IsStores S.stands) (parts_of self.old) w m }
        requires entry { IsEntry entry.now }
        ensures { (w : World) (m : Machine) → IsAt (IsStores S.stands) (parts_of self.old) w m → m.names ≡ names.now
            → IfOk result (λ r. Moves (IsStores S.stands) w m (attempt w.run.dialect w.run.opening w.run.made is_first (entry_of entry.now) m) (parts_of self.new) r told.old.items told.new.items made.old made.new) }
    {
        match self.stores.read(entry)? {
            Asked::Faulty(why) => self.refuse(entry, why.as_str(), told),
            Asked::OfData(statement) => self.run_data(entry, &statement, names, told, made),
            Asked::OfDefinition(statement) => {
                self.run_definition(is_first, entry, &statement, names, told, made)
            }
            Asked::Starts(modes) => self.start(entry, modes, told),
            Asked::Commits => self.commit(entry.session, told, made),
            Asked::RollsBack => self.roll_back(entry.session, told),
            Asked::OnSettings(control) => self.run_control(entry.session, &control, told),
        }
    }

    // A session whose entry waited and is answered waits for nobody any more. Takes no memory.
    fn settle_waits(&mut self, is_first: bool, is_final: bool, session: SessionNo)
        requires { IsSession session.0 }
        ensures { (w : World) (side : Side) → IsNumber (length side.settings) session.0 → Fits (IsStores S.stands) (parts_of self.old) w (kept_of side) → Fits (IsStores S.stands) (parts_of self.new) w (kept_of (answered_by is_first is_final session.0 side)) }
    {
        if is_first {
            return;
        }
        if !is_final {
            return;
        }
        self.holding.answer(session);
    }
}

impl<S: Store + Drop> Engine for Transactions<S> {
    ghost use Rattle.hs_transactions.specs.Parts.{parts_of};
    ghost use Rattle.hs_transactions.specs.Standing.{Stands};

    ghost stands = { λ t w side. Stands (IsStores S.stands) (parts_of t) w side };

    fn commits(&self) -> u64 {
        self.commits
    }

    fn admit(&mut self) -> Result<(), NoMemory> {
        let level = self.stores.level();
        self.holding.admit(level, self.alloc)
    }

    fn attempt(
        &mut self,
        is_first: bool,
        entry: &Entry,
        names: &Names,
        told: &mut Vec<Words>,
        made: &mut Batch,
    ) -> Result<Attempted, NoMemory> {
        let mut texts = Batch::new(self.alloc);
        let attempted = self.run(is_first, entry, names, told, &mut texts)?;
        self.settle_waits(is_first, attempted.is_final, entry.session);
        made.append(&texts)?;
        Ok(attempted)
    }

    fn close(&mut self, session: SessionNo, _names: &Names) -> Result<bool, NoMemory> {
        if !self.holding.is_open(session) {
            return Ok(false);
        }
        self.leave(session)?;
        Ok(true)
    }
}
