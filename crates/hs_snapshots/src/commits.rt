// Commits, which are made at the present.
ghost use Rattle.std.specs.Prelude.{◌≡◌, ◌≤◌, ◌∷◌, [], List, None, true, length, IfOk, OnErr};
ghost use Rattle.hs_claims.specs.Session.{IsSession};
ghost use Rattle.hs_plan.specs.declared.change.Change.TheVariants as change;
ghost use Rattle.hs_queue.specs.Entries.{entry_of};
ghost use Rattle.hs_seams.specs.Calls.{IsEntry};
ghost use Rattle.hs_seams.specs.Stores.{Commits, IsDefined, present};
ghost use Rattle.hs_seams.specs.World.{World};
ghost use Rattle.hs_turns.specs.Database.{has_room};
ghost use Rattle.hs_turns.specs.Histories.{Commit};
ghost use Rattle.hs_snapshots.specs.Stores.{IsReadyToDefine, IsStores, starts_of};

use crate::stores::Stores;
use hs_ast::Stmt;
use hs_base::{NoMemory, SessionNo};
use hs_log::Batch;
use hs_plan::{Changes, Definition};
use hs_queue::Entry;
use hs_seams::Store;
use hs_values::Chars;

impl<S: Store + Drop> Stores<S> {
    /// Commits the changes that are on the present database, of which there is one at least, for a session, and adds the text of the
    /// commit. Answers whether the log has room for it; else nothing is changed. After an `Err`, which is want of memory, no text is
    /// added.
    pub fn commit(
        &mut self,
        session: SessionNo,
        changes: &Changes,
        made: &mut Batch,
    ) -> Result<bool, NoMemory>
        requires place { self.old.place ≡ None }
        requires session { IsSession session.0 }
        requires some { 1 ≤ length changes.now }
        requires room { (w : World) × (commits : List Commit) × (IsStores S.stands self.old w commits changes.now × (has_room (present w commits) changes.now ≡ true)) }
        ensures committed { (w : World) (commits : List Commit) → IsStores S.stands self.old w commits changes.now → (k : Commit) → k.session ≡ session.0 → k.changes ≡ changes.now → IfOk result (Commits (IsStores S.stands self.new) w commits changes.now k made.old made.new) }
        ensures err { OnErr result (made.new ≡ made.old) }
        ensures starts { starts_of self.new ≡ starts_of self.old }
        ensures place { self.new.place ≡ None }
    {
        self.present.commit(session, changes, made)
    }

    /// What a definition defines over the present database, where no changes of a transaction are on a store, or why it is refused. An
    /// `Err` is want of memory.
    pub fn definition(
        &self,
        entry: &Entry,
        statement: &Stmt,
    ) -> Result<Result<Definition, Chars>, NoMemory>
        requires ready { IsReadyToDefine (IsStores S.stands self.now) }
        requires entry { IsEntry entry.now }
        requires tree { S.is_read statement.now (entry_of entry.now).text }
        ensures { (w : World) (commits : List Commit) → IsStores S.stands self.now w commits [] → w.run.dialect.is_valid (present w commits) ≡ true → IfOk result (λ answer. answer ≡ w.run.dialect.definition (present w commits) (entry_of entry.now).text) }
    {
        self.present.definition(entry, statement)
    }

    /// Commits a definition for a session, and adds the text of the commit. Answers whether the log has room for it; else nothing is
    /// changed. No changes of a transaction are on a store. After an `Err`, which is want of memory, no text is added.
    pub fn define(
        &mut self,
        session: SessionNo,
        definition: Definition,
        made: &mut Batch,
    ) -> Result<bool, NoMemory>
        requires session { IsSession session.0 }
        requires defined { IsDefined (IsStores S.stands self.old) definition }
        ensures committed { (w : World) (commits : List Commit) → IsStores S.stands self.old w commits [] → (k : Commit) → k.session ≡ session.0 → k.changes ≡ change.Define definition ∷ [] → IfOk result (Commits (IsStores S.stands self.new) w commits [] k made.old made.new) }
        ensures err { OnErr result (made.new ≡ made.old) }
        ensures starts { starts_of self.new ≡ starts_of self.old }
        ensures place { self.new.place ≡ self.old.place }
    {
        self.present.define(session, definition, made)
    }
}
