// Statements on a session's settings and savepoints.
ghost use Rattle.std.specs.Prelude.{◌≡◌, ◌==◌, ◌++◌, ◌&&◌, [], List, length, take, codes, not, true, false, IfOk, OnOk};
ghost use Rattle.hs_turns.specs.Histories.{Commit};
ghost use Rattle.hs_holding.specs.Held.{IsSeat, seat_of};
ghost use Rattle.hs_plan.specs.declared.change.Change.{Change};
ghost use Rattle.hs_seams.specs.World.{World};
ghost use Rattle.hs_sides.specs.Sides.{side_of};
ghost use Rattle.hs_turns.specs.Attempts.{attempt_control, is_savepoint, savepoint_of};
ghost use Rattle.hs_turns.specs.Machine.{Machine};
ghost use Rattle.hs_controls.specs.Controls.{IsSet, begins_first, control_told};
ghost use Rattle.hs_moves.specs.Answers as spec;
ghost use Rattle.hs_moves.specs.Fits.{Fits, IsHere, changes_of, kept_of};
ghost use Rattle.hs_moves.specs.Moves.{Moves};
ghost use Rattle.hs_moves.specs.Parts.{Parts};
ghost use Rattle.hs_transactions.specs.Parts.{parts_of, spans_of};
ghost use Rattle.hs_snapshots.specs.Stores.{IsStores};
ghost use Rattle.hs_snapshots.specs.declared.stores.Stores.{Stores as TheStores};

use crate::telling::{tell_ok, tell_refusal};
use crate::transactions::Transactions;
use hs_base::{CommitNo, NoMemory, SessionNo};
use hs_lines::Words;
use hs_seams::{Attempted, Store};
use hs_sessions::{Control, ControlReply};
use hs_values::{Chars, Name};
use std::alloc::Global;

// Whether it is SAVEPOINT.
fn is_mark(control: &Control) -> bool
    ensures { result ≡ is_savepoint control.now }
{
    match control {
        Control::Savepoint(_) => true,
        Control::Autocommit(_) => false,
        Control::Characteristics(_) => false,
        Control::Transaction(_) => false,
        Control::RollbackTo(_) => false,
        Control::Release(_) => false,
        Control::WriteDelayFalse => false,
    }
}

// The savepoint that a statement names, and no text where it names none. An `Err` is want of memory.
fn named(alloc: Global, control: &Control) -> Result<Name, NoMemory>
    ensures { IfOk result (λ name. name ≡ savepoint_of control.now) }
{
    match control {
        Control::Savepoint(name) => Ok(name.copy()?),
        Control::RollbackTo(name) => Ok(name.copy()?),
        Control::Release(name) => Ok(name.copy()?),
        Control::Autocommit(_) => Ok(Name::from_text(alloc, "")?),
        Control::Characteristics(_) => Ok(Name::from_text(alloc, "")?),
        Control::Transaction(_) => Ok(Name::from_text(alloc, "")?),
        Control::WriteDelayFalse => Ok(Name::from_text(alloc, "")?),
    }
}

// Why it is refused where its session has no savepoint of a name, as it stands in a line. An `Err` is want of memory.
fn no_savepoint(alloc: Global, printed: &Chars) -> Result<Chars, NoMemory>
    ensures { IfOk result (λ why. why ≡ codes "no savepoint " ++ printed.now) }
{
    let mut why = Chars::from_text(alloc, "no savepoint ")?;
    why.push_text(printed.as_str())?;
    Ok(why)
}

impl<S: Store + Drop> Transactions<S> {
    // Does a statement on settings or savepoints. SAVEPOINT begins a transaction, where none is open and autocommit is off.
    // An `Err` is want of memory.
    pub(crate) fn run_control(
        &mut self,
        session: SessionNo,
        control: &Control,
        told: &mut Vec<Words>,
    ) -> Result<Attempted, NoMemory>
        requires { IsHere (parts_of self.old) session.0 }
        ensures { (w : World) (m : Machine) → Fits (IsStores S.stands) (parts_of self.old) w (kept_of (side_of m))
            → IfOk result (λ r. Moves (IsStores S.stands) w m (attempt_control w.run.dialect w.run.opening w.run.made control.now session.0 m) (parts_of self.new) r told.old.items told.new.items [] []) }
    {
        if self.begins_first(session, control) {
            self.holding
                .begin(session, false, CommitNo(self.count), self.alloc)?;
            return self.set(session, control, told);
        }
        self.set(session, control, told)
    }

    // Whether a statement begins a transaction.
    fn begins_first(&self, session: SessionNo, control: &Control) -> bool
        requires { IsSeat self.now.holding session.0 }
        ensures { result ≡ begins_first control.now (seat_of self.now.holding session.0) }
    {
        if !is_mark(control) {
            return false;
        }
        if self.holding.is_autocommit(session) {
            return false;
        }
        !self.holding.is_open(session)
    }

    // Does it on what the session holds and on the database, and tells what it comes to. An `Err` is want of memory.
    fn set(
        &mut self,
        session: SessionNo,
        control: &Control,
        told: &mut Vec<Words>,
    ) -> Result<Attempted, NoMemory>
        requires { IsHere (parts_of self.old) session.0 }
        ensures { (w : World) (commits : List Commit) (before : Parts (TheStores S)) → IsStores S.stands self.old.stores w commits (changes_of before before.seated.0) → before.seated ≡ self.old.seated → before.commits ≡ self.old.commits → before.spans ≡ spans_of self.old
            → IfOk result (λ r. IsSet (IsStores S.stands) w commits control.now session.0 before self.old.holding (parts_of self.new) r told.old.items told.new.items) }
    {
        let reply = self.holding.control(session, control, self.alloc)?;
        self.take_back(session)?;
        self.tell_control(reply, control, told)?;
        Ok(Attempted {
            is_final: true,
            has_ended: false,
        })
    }

    // Takes back what is on the database beyond the changes of a session, where that is seated. An `Err` is want of memory.
    fn take_back(&mut self, session: SessionNo) -> Result<(), NoMemory>
        requires { IsHere (parts_of self.old) session.0 }
        ensures own { (w : World) (commits : List Commit) (seated : List Change) → IsStores S.stands self.old.stores w commits seated → self.old.seated.0 ≡ session.0 → OnOk result (IsStores S.stands self.new.stores w commits (take (length (changes_of (parts_of self.old) session.0)) seated)) }
        ensures other { (w : World) (commits : List Commit) (seated : List Change) → IsStores S.stands self.old.stores w commits seated → (self.old.seated.0 == session.0) ≡ false → OnOk result (IsStores S.stands self.new.stores w commits seated) }
        ensures holding { self.new.holding ≡ self.old.holding }
        ensures seated { self.new.seated ≡ self.old.seated }
        ensures commits { self.new.commits ≡ self.old.commits }
        ensures spans { OnOk result (spans_of self.new ≡ spans_of self.old) }
    {
        if self.seated.0 != session.0 {
            return Ok(());
        }
        let len = self.holding.changes(session).len();
        self.stores.back(len)?;
        Ok(())
    }

    // What it comes to. An `Err` is want of memory.
    fn tell_control(
        &self,
        reply: ControlReply,
        control: &Control,
        told: &mut Vec<Words>,
    ) -> Result<(), NoMemory>
        ensures { (w : World) (commits : List Commit) (seated : List Change) → IsStores S.stands self.now.stores w commits seated → OnOk result (told.new.items ≡ control_told w told.old.items reply control.now) }
    {
        match reply {
            ControlReply::Ok => tell_ok(self.alloc, told, None),
            ControlReply::OpenTransaction => tell_refusal(self.alloc, told, "open transaction"),
            ControlReply::NoSavepoint => self.tell_no_savepoint(control, told),
        }
    }

    // The session has no savepoint of the name. An `Err` is want of memory.
    fn tell_no_savepoint(&self, control: &Control, told: &mut Vec<Words>) -> Result<(), NoMemory>
        ensures { (w : World) (commits : List Commit) (seated : List Change) → IsStores S.stands self.now.stores w commits seated
            → OnOk result (told.new.items ≡ spec.refusal_told told.old.items (codes "no savepoint " ++ w.run.dialect.printed_name (savepoint_of control.now))) }
    {
        let name = named(self.alloc, control)?;
        let printed = self.stores.printed_name(&name)?;
        let why = no_savepoint(self.alloc, &printed)?;
        tell_refusal(self.alloc, told, why.as_str())?;
        Ok(())
    }
}
