//! Laws of histories, each on a function that does nothing. They hold of every language whose statements meet `Laws`, of
//! every database that such a history may begin with, and of every list of events. Proofs of other crates cite them from
//! `Whole.antt` in `proofs/`.
ghost use Rattle.std.specs.Prelude.{◌≡◌, ℕ, Bool, true, false, List, [], ◌∷◌, length, map, Some};
ghost use Rattle.hs_claims.specs.Compatible.{fits};
ghost use Rattle.hs_claims.specs.Wants.{catalog_claim};
ghost use Rattle.hs_claims.specs.declared.footprint.Footprint.{Footprint};
ghost use Rattle.hs_claims.specs.declared.model.ControlKind.{ControlKind};
ghost use Rattle.hs_claims.specs.declared.model.Level.{Level};
ghost use Rattle.hs_turns.specs.Database.{Database, state as database_state};
ghost use Rattle.hs_turns.specs.Alone.{attempts, only};
ghost use Rattle.hs_turns.specs.Events.{Event, fresh, reached};
ghost use Rattle.hs_turns.specs.Histories.{Commit, held, now, session_commit, state};
ghost use Rattle.hs_turns.specs.Inserting.{table_one};
ghost use Rattle.hs_turns.specs.Language.{Language, Laws, Stands};
ghost use Rattle.hs_turns.specs.Promises.{AreMade, EachEnded, IsCommitted, IsFirst, IsInOrder, IsSerial, IsSnapshot};
ghost use Rattle.hs_turns.specs.Transactions.{Statement, nothing, replay, session_in, with_session};
ghost use Rattle.hs_plan.specs.declared.change.Change.TheVariants as change;
ghost use Rattle.hs_schema.specs.Catalogue.{Text};
ghost use Rattle.hs_sessions.specs.declared.control.Control.{Control};
ghost use Rattle.hs_sessions.specs.declared.session.Session.{Session};
ghost use Rattle.hs_sessions.specs.declared.session.Transaction.{Transaction};
ghost use Rattle.hs_sessions.specs.Settings.{controlled};

/// Serial: a transaction at SERIALIZABLE that doesn't read its start, as any under LOCKS and those that may write under
/// MVLOCKS, answers as if it ran alone on the commits just before its end, and changes the same. So transactions that
/// commit answer as if they were run one at a time, in the order of their commits.
pub fn serializable_transactions_answer_in_the_order_of_their_commits()
    ensures { (lang : Language) (opening : Database) (events : List Event) → Laws lang → Stands lang opening → EachEnded (reached lang opening events) (IsSerial lang opening) }
{}

/// One at a time: where such a transaction was committed, its changes are the next commit, and the state behind that is
/// what its statements make of the state before it, alone there. Each commit is of an ended transaction, or a definition's.
/// So where all transactions are serializable ones, the states are those of running them one at a time, in the order of
/// their commits.
pub fn serializable_transactions_are_as_run_one_at_a_time()
    ensures committed { (lang : Language) (opening : Database) (events : List Event) → Laws lang → Stands lang opening → EachEnded (reached lang opening events) IsCommitted }
    ensures made { (lang : Language) (opening : Database) (events : List Event) → Laws lang → Stands lang opening → AreMade (reached lang opening events).commits (reached lang opening events).ended }
    ensures in_order { (lang : Language) (opening : Database) (events : List Event) → Laws lang → Stands lang opening → EachEnded (reached lang opening events) (IsInOrder lang opening) }
{}

/// Prefix readers and Snapshots: a transaction that reads its start, as one that is read-only under MVLOCKS and one at
/// snapshot isolation under MVCC, answers as if it ran alone on the commits before its start, and changes the same.
pub fn snapshots_answer_as_alone_at_their_start()
    ensures { (lang : Language) (opening : Database) (events : List Event) → Laws lang → Stands lang opening → EachEnded (reached lang opening events) (IsSnapshot lang opening) }
{}

/// First claimer: a transaction at snapshot isolation puts or deletes no committed row that a commit between its start and
/// its end puts or deletes, at whatever level that commit was made.
pub fn the_first_claimer_changes_a_row_alone()
    ensures { (lang : Language) (opening : Database) (events : List Event) → Laws lang → Stands lang opening → EachEnded (reached lang opening events) IsFirst }
{}

/// Valid prefixes: in the state after each number of commits every constraint holds, and each row fits its columns.
pub fn every_prefix_of_the_commits_is_valid()
    ensures { (lang : Language) (opening : Database) (events : List Event) → Laws lang → Stands lang opening → (k : ℕ) → lang.is_valid (state opening (reached lang opening events).commits k) ≡ true }
{}

/// The model of a history is that of its database.
pub fn the_model_is_that_of_the_database()
    ensures { (lang : Language) (opening : Database) (events : List Event) → Laws lang → Stands lang opening → (reached lang opening events).kind ≡ (now opening (reached lang opening events).commits).control }
{}

/// What statements come to alone is what a session comes to that attempts them one after another in a transaction, whatever
/// its model, level and access, where no other session is.
pub fn alone_is_what_one_session_comes_to()
    ensures { (lang : Language) (opening : Database) (kind : ControlKind) (commits : List Commit) (e : Event) (statements : List Statement) → e.auto ≡ false
        → attempts lang opening e statements (only kind commits (fresh kind e (length commits))) ≡ only kind commits (record (fresh kind e (length commits)) { statements = statements; trace = replay lang e.read_only (now opening commits) statements }) }
{}

/// What a statement on savepoints or settings answers in a transaction, and what it leaves of its changes and savepoints,
/// depends on these alone, and on nothing else of its session.
pub fn a_savepoint_is_of_its_transaction_alone()
    ensures { (control : Control) (s : Session) (t : Transaction) → s.transaction ≡ Some t → with_session (controlled control s) nothing ≡ with_session (controlled control (session_in (record nothing { changes = s.changes; savepoints = s.savepoints }))) nothing }
{}

/// The states of a history are those of its commits as sessions have them.
pub fn states_are_those_of_the_commits()
    ensures { (kind : ControlKind) (opening : Database) (commits : List Commit) (k : ℕ) → state opening commits k ≡ database_state opening (map (session_commit kind) commits) k }
{}

/// A definition wants the catalogue exclusive, which doesn't go together with what an open transaction holds. So it waits
/// for every open transaction.
pub fn definitions_wait_for_every_open_transaction()
    ensures { (kind : ControlKind) (level : Level) (read_only : Bool) (feet : List Footprint) → fits (catalog_claim true ∷ []) (held kind level read_only feet) ≡ false }
{}

/// The laws can be met, by a language whose one statement inserts a row.
pub fn the_laws_can_be_met()
    ensures { (lang : Language) × Laws lang × ((inserted : ℕ) (db : Database) (text : Text) → (lang.outcome false inserted db text).changes ≡ change.Insert table_one [] ∷ []) }
{}
