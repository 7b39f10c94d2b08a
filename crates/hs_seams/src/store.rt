// What an engine asks of a store.
ghost use Rattle.std.specs.Prelude.{◌≡◌, ◌≤◌, ◌++◌, ◌∷◌, [], List, Ok, true, length, take, IfOk, OnOk, OnErr};
ghost use Rattle.hs_ast.specs.declared.statement.Stmt.{Stmt as TheStmt};
ghost use Rattle.hs_claims.specs.Session.{IsSession};
ghost use Rattle.hs_turns.specs.Database.{has_room};
ghost use Rattle.hs_turns.specs.Histories.{Commit};
ghost use Rattle.hs_plan.specs.declared.change.Change.{Change as TheChange};
ghost use Rattle.hs_plan.specs.declared.change.Change.TheVariants as change;
ghost use Rattle.hs_queue.specs.Entries.{entry_of};
ghost use Rattle.hs_schema.specs.Catalogue.{Text};
ghost use Rattle.hs_seams.specs.Calls.{IsEntry};
ghost use Rattle.hs_seams.specs.Stores.{Commits, Evaluates, IsDefined, IsReady, IsTreeOf, IsWorld, asked_of, present, seen};
ghost use Rattle.hs_seams.specs.World.{World};

use crate::asked::Asked;
use crate::outcome::Outcome;
use hs_ast::{Isolation, Stmt};
use hs_base::{NoMemory, SessionNo};
use hs_claims::ControlKind;
use hs_log::Batch;
use hs_plan::{Changes, Definition};
use hs_queue::Entry;
use hs_values::{Chars, Name};

/// The database that sessions share, with the changes of one transaction on it: what statements come to there. It makes
/// commits, with the texts that they have in the log. After an `Err`, which is want of memory, nothing is known of it.
pub trait Store {
    /// It stands behind these commits of a run in this world, with these changes of a transaction on the database.
    ghost stands: { Self → World → List Commit → List TheChange → Type 0 };

    /// This is the statement of an entry with this text.
    ghost is_read: { TheStmt → Text → Type 0 };

    /// The model of transactions.
    fn control(&self) -> ControlKind
        ensures { (w : World) (commits : List Commit) (seated : List TheChange) → stands self.now w commits seated → result ≡ (present w commits).control };

    /// The default level of new sessions.
    fn level(&self) -> Isolation
        ensures { (w : World) (commits : List Commit) (seated : List TheChange) → stands self.now w commits seated → result ≡ (present w commits).level };

    /// Whether a commit of so many changes keeps within those that a database has in its life.
    fn has_room(&self, count: usize) -> bool
        ensures { (w : World) (commits : List Commit) (seated : List TheChange) → stands self.now w commits seated → (changes : List TheChange) → length changes ≡ count → result ≡ has_room (present w commits) changes };

    /// A name as it stands in a line.
    fn printed_name(&self, name: &Name) -> Result<Chars, NoMemory>
        ensures { (w : World) (commits : List Commit) (seated : List TheChange) → stands self.now w commits seated → IfOk result (λ text. text ≡ w.run.dialect.printed_name name.now) };

    /// What an entry asks for.
    fn read(&self, entry: &Entry) -> Result<Asked, NoMemory>
        requires { IsEntry entry.now }
        ensures asked { (w : World) (commits : List Commit) (seated : List TheChange) → stands self.now w commits seated → IfOk result (λ asked. asked_of asked ≡ w.run.dialect.request (entry_of entry.now).text) }
        ensures tree { IfOk result (λ asked. IsTreeOf is_read asked (entry_of entry.now).text) };

    /// Why a data statement or a definition is refused before it wants anything, in a read-only transaction or another.
    fn refusal(
        &self,
        entry: &Entry,
        statement: &Stmt,
        read_only: bool,
    ) -> Result<Option<Chars>, NoMemory>
        requires entry { IsEntry entry.now }
        requires tree { is_read statement.now (entry_of entry.now).text }
        ensures { (w : World) (commits : List Commit) (seated : List TheChange) → stands self.now w commits seated → IfOk result (λ why. why ≡ w.run.dialect.refusal read_only (seen w commits seated) (entry_of entry.now).text) };

    /// What a data statement comes to, or why it is refused before it wants anything. Its changes are made behind those that
    /// are on the database. The database with these is valid.
    fn evaluate(
        &mut self,
        entry: &Entry,
        statement: &Stmt,
        read_only: bool,
    ) -> Result<Result<Outcome, Chars>, NoMemory>
        requires ready { IsReady (stands self.old) }
        requires entry { IsEntry entry.now }
        requires tree { is_read statement.now (entry_of entry.now).text }
        ensures { (w : World) (commits : List Commit) (seated : List TheChange) → stands self.old w commits seated → w.run.dialect.is_valid (seen w commits seated) ≡ true → IfOk result (Evaluates (stands self.new) w commits seated read_only (entry_of entry.now).text) };

    /// Takes back the changes behind the first so many.
    fn back(&mut self, len: usize) -> Result<(), NoMemory>
        ensures { (w : World) (commits : List Commit) (seated : List TheChange) → stands self.old w commits seated → OnOk result (stands self.new w commits (take len seated)) };

    /// Makes changes of rows behind those that are on the database.
    fn advance(&mut self, changes: &Changes) -> Result<(), NoMemory>
        ensures { (w : World) (commits : List Commit) (seated : List TheChange) → stands self.old w commits seated → OnOk result (stands self.new w commits (seated ++ changes.now)) };

    /// Commits the changes that are on the database, of which there is one at least, for a session, and adds the text of the
    /// commit. Answers whether the log has room for it; else nothing is changed. After an `Err` no text is added.
    fn commit(
        &mut self,
        session: SessionNo,
        changes: &Changes,
        made: &mut Batch,
    ) -> Result<bool, NoMemory>
        requires session { IsSession session.0 }
        requires some { 1 ≤ length changes.now }
        requires room { (w : World) × (commits : List Commit) × (stands self.old w commits changes.now × (has_room (present w commits) changes.now ≡ true)) }
        ensures committed { (w : World) (commits : List Commit) → stands self.old w commits changes.now → (k : Commit) → k.session ≡ session.0 → k.changes ≡ changes.now → IfOk result (Commits (stands self.new) w commits changes.now k made.old made.new) }
        ensures err { OnErr result (made.new ≡ made.old) };

    /// What a definition defines over the database, on which no changes of a transaction are, or why it is refused.
    fn definition(
        &self,
        entry: &Entry,
        statement: &Stmt,
    ) -> Result<Result<Definition, Chars>, NoMemory>
        requires ready { IsReady (stands self.now) }
        requires entry { IsEntry entry.now }
        requires tree { is_read statement.now (entry_of entry.now).text }
        ensures { (w : World) (commits : List Commit) → stands self.now w commits [] → w.run.dialect.is_valid (present w commits) ≡ true → IfOk result (λ answer. answer ≡ w.run.dialect.definition (present w commits) (entry_of entry.now).text) };

    /// Commits a definition for a session, and adds the text of the commit. Answers whether the log has room for it; else
    /// nothing is changed. No changes of a transaction are on the database. After an `Err` no text is added.
    fn define(
        &mut self,
        session: SessionNo,
        definition: Definition,
        made: &mut Batch,
    ) -> Result<bool, NoMemory>
        requires session { IsSession session.0 }
        requires defined { IsDefined (stands self.old) definition }
        ensures committed { (w : World) (commits : List Commit) → stands self.old w commits [] → (k : Commit) → k.session ≡ session.0 → k.changes ≡ change.Define definition ∷ [] → IfOk result (Commits (stands self.new) w commits [] k made.old made.new) }
        ensures err { OnErr result (made.new ≡ made.old) };

    /// Another store with the same database, on which no changes of a transaction are. An `Err` is want of memory.
    fn copy(&self) -> Result<Self, NoMemory>
        ensures { (w : World) (commits : List Commit) → stands self.now w commits [] → IfOk result (λ s. stands s w commits []) };

    /// The world is one over which runs keep what their model promises.
    ghost world: { (s : Self) (w : World) (commits : List Commit) (seated : List TheChange) → stands s w commits seated → IsWorld w };
}
