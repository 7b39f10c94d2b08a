// What is asked of the present.
ghost use Rattle.std.specs.Prelude.{◌≡◌, List, length, IfOk};
ghost use Rattle.hs_plan.specs.declared.change.Change.{Change};
ghost use Rattle.hs_queue.specs.Entries.{entry_of};
ghost use Rattle.hs_seams.specs.Calls.{IsEntry};
ghost use Rattle.hs_seams.specs.Stores.{IsTreeOf, asked_of, present};
ghost use Rattle.hs_seams.specs.World.{World};
ghost use Rattle.hs_turns.specs.Database.{has_room};
ghost use Rattle.hs_turns.specs.Histories.{Commit};
ghost use Rattle.hs_snapshots.specs.Stores.{IsStores};

use crate::stores::Stores;
use hs_ast::Isolation;
use hs_base::NoMemory;
use hs_claims::ControlKind;
use hs_queue::Entry;
use hs_seams::{Asked, Store};
use hs_values::{Chars, Name};

impl<S: Store + Drop> Stores<S> {
    /// The present model of transactions.
    pub fn control(&self) -> ControlKind
        ensures { (w : World) (commits : List Commit) (seated : List Change) → IsStores S.stands self.now w commits seated → result ≡ (present w commits).control }
    {
        self.present.control()
    }

    /// The default level of new sessions.
    pub fn level(&self) -> Isolation
        ensures { (w : World) (commits : List Commit) (seated : List Change) → IsStores S.stands self.now w commits seated → result ≡ (present w commits).level }
    {
        self.present.level()
    }

    /// Whether a commit of so many changes keeps within those that a database has in its life.
    pub fn has_room(&self, count: usize) -> bool
        ensures { (w : World) (commits : List Commit) (seated : List Change) → IsStores S.stands self.now w commits seated → (changes : List Change) → length changes ≡ count → result ≡ has_room (present w commits) changes }
    {
        self.present.has_room(count)
    }

    /// A name as it stands in a line. An `Err` is want of memory.
    pub fn printed_name(&self, name: &Name) -> Result<Chars, NoMemory>
        ensures { (w : World) (commits : List Commit) (seated : List Change) → IsStores S.stands self.now w commits seated → IfOk result (λ text. text ≡ w.run.dialect.printed_name name.now) }
    {
        self.present.printed_name(name)
    }

    /// What an entry asks for. An `Err` is want of memory.
    pub fn read(&self, entry: &Entry) -> Result<Asked, NoMemory>
        requires { IsEntry entry.now }
        ensures asked { (w : World) (commits : List Commit) (seated : List Change) → IsStores S.stands self.now w commits seated → IfOk result (λ asked. asked_of asked ≡ w.run.dialect.request (entry_of entry.now).text) }
        ensures tree { IfOk result (λ asked. IsTreeOf S.is_read asked (entry_of entry.now).text) }
    {
        self.present.read(entry)
    }
}
