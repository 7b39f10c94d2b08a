//! Laws of what entries come to, each on a function that does nothing.
ghost use Rattle.std.specs.Prelude.{◌≡◌, ◌≤◌, ◌<◌, ◌+◌, ◌^◌, ◌==◌, ℕ, Bool, true, false, List, [], ◌∷◌, ◌++◌, None, Some, Ok, Err, length, filter, codes};
ghost use Rattle.hs_ast.specs.declared.session.Modes.{Modes as NewModes};
ghost use Rattle.hs_base.specs.declared.numbers.CommitNo.{CommitNo};
ghost use Rattle.hs_claims.specs.declared.blockers.Blockers.{Blockers};
ghost use Rattle.hs_claims.specs.Blockers.{has};
ghost use Rattle.hs_claims.specs.Session.{IsSession};
ghost use Rattle.hs_turns.specs.Database.{has_room};
ghost use Rattle.hs_turns.specs.Definitions.{control_after};
ghost use Rattle.hs_turns.specs.Events.{Event, definition_commit, fresh};
ghost use Rattle.hs_turns.specs.Histories.{Commit, History, Open, commit_of, others, own};
ghost use Rattle.hs_holding.specs.declared.holding.Holding.{Holding};
ghost use Rattle.hs_holding.specs.Held.{IsNumber, is_open_at};
ghost use Rattle.hs_lines.specs.declared.words.Words.{Words as Said};
ghost use Rattle.hs_plan.specs.declared.change.Change.{Change};
ghost use Rattle.hs_plan.specs.declared.definition.Definition.{Definition};
ghost use Rattle.hs_schema.specs.Catalogue.{Text};
ghost use Rattle.hs_seams.specs.declared.attempted.Attempted.{Attempted};
ghost use Rattle.hs_seams.specs.Stores.{IsWorld, present};
ghost use Rattle.hs_seams.specs.World.{World, texts_since};
ghost use Rattle.hs_sides.specs.Sides.{Side, attempted, side_of};
ghost use Rattle.hs_tied.specs.Holds.{Holds};
ghost use Rattle.hs_tied.specs.Kept.{Kept, committed, left, opened, with_waits};
ghost use Rattle.hs_turns.specs.Attempts.{Empty, Fits as HasRoom, LogFull, TooManyChanges, attempt_commit, attempt_data, attempt_rollback, attempt_start, blockers, conflict_words, deadlock_words, defined, held_up, leading_back, named, next_number, refused_in_place};
ghost use Rattle.hs_turns.specs.Dialect.{open_transaction};
ghost use Rattle.hs_turns.specs.Laws.{IsHistory};
ghost use Rattle.hs_turns.specs.Machine.{Machine, is_open, open_of};
ghost use Rattle.hs_turns.proofs.Opened.{has as opens};
ghost use Rattle.hs_turns.specs.Waiting.{Entry, ascending, waits_for};
ghost use Rattle.hs_tied.specs.Waiting.{Ways};
ghost use Rattle.hs_moves.specs.Answers.{IsLeft, ok_told, outcome_told, refusal_told};
ghost use Rattle.hs_moves.specs.Begun.{ended_with, kept_after, kept_waiting};
ghost use Rattle.hs_moves.specs.Called.{IsBegun, IsEnded};
ghost use Rattle.hs_moves.specs.Evaluated.{IsAccepted, IsBlocked, IsUnblocked, IsValidFor, data_after, data_outcome, data_own, data_wanted, is_clear};
ghost use Rattle.hs_moves.specs.Fits.{Fits, IsHere, Rests, changes_of, kept_of};
ghost use Rattle.hs_moves.specs.Moves.{Makes, Moves, ending_in};
ghost use Rattle.hs_moves.specs.Parts.{Parts};
ghost use Rattle.hs_moves.specs.Refused.{IsRefused};
ghost use Rattle.hs_moves.specs.Spanned.{IsSpanned};
ghost use Rattle.hs_lines.specs.declared.words.Words.TheVariants as said;
ghost use Rattle.hs_plan.specs.declared.change.Change.TheVariants as change;

use hs_seams::Store;

/// ROLLBACK is told `ok`, and the session's open transaction ends, where there is one.
pub fn rollback_ends_the_transaction<S: Store>()
    ensures none { (w : World) (m : Machine) (new : Parts S) (r : Attempted) (old told : List Said) (s : ℕ) → is_open m s ≡ false
        → IsLeft S.stands w (kept_of (side_of m)) new r true false told (ok_told old None)
        → Moves S.stands w m (attempt_rollback w.run.dialect w.run.opening w.run.made (is_open m s) s m) new r old told [] [] }
    ensures open_ { (w : World) (m : Machine) (new : Parts S) (r : Attempted) (old told : List Said) (s : ℕ) → is_open m s ≡ true
        → IsLeft S.stands w (left s (kept_of (side_of m))) new r true true told (ok_told old None)
        → Moves S.stands w m (attempt_rollback w.run.dialect w.run.opening w.run.made (is_open m s) s m) new r old told [] [] }
{}

/// COMMIT is told `ok`. A transaction with changes is committed where the database has room for their number and the log for their
/// text, and the reply has the number of the commit; one without changes ends. Else COMMIT is refused, and the transaction stays
/// open.
pub fn commit_ends_the_transaction_where_it_finds_room<S: Store>()
    ensures none { (w : World) (m : Machine) (new : Parts S) (r : Attempted) (old told : List Said) (s : ℕ) (made : List (List ℕ)) → open_of m s ≡ None
        → IsLeft S.stands w (kept_of (side_of m)) new r true false told (ok_told old None)
        → Moves S.stands w m (attempt_commit w.run.dialect w.run.opening w.run.made (open_of m s) s m) new r old told made made }
    ensures unchanged { (w : World) (m : Machine) (new : Parts S) (r : Attempted) (old told : List Said) (old_made made : List (List ℕ)) (s : ℕ) → (o : Open) → open_of m s ≡ Some o
        → ending_in w m o ≡ Empty → IsLeft S.stands w (left s (kept_of (side_of m))) new r true true told (ok_told old None) → made ≡ old_made
        → Moves S.stands w m (attempt_commit w.run.dialect w.run.opening w.run.made (open_of m s) s m) new r old told old_made made }
    ensures committed { (w : World) (m : Machine) (new : Parts S) (r : Attempted) (old told : List Said) (old_made made : List (List ℕ)) (s : ℕ) → (number : ℕ) → (o : Open) → open_of m s ≡ Some o
        → ending_in w m o ≡ HasRoom → number ≡ next_number w.run.dialect w.run.opening w.run.made m
        → IsLeft S.stands w (committed s (commit_of o) (kept_of (side_of m))) new r true true told (ok_told old (Some (record { 0 = number })))
        → made ≡ old_made ++ w.text m.history.commits (commit_of o) ∷ [] → Moves S.stands w m (attempt_commit w.run.dialect w.run.opening w.run.made (open_of m s) s m) new r old told old_made made }
    ensures many { (w : World) (m : Machine) (new : Parts S) (r : Attempted) (old told : List Said) (old_made made : List (List ℕ)) (s : ℕ) → (o : Open) → open_of m s ≡ Some o
        → ending_in w m o ≡ TooManyChanges → IsLeft S.stands w (kept_of (side_of m)) new r true false told (refusal_told old (codes "changes")) → made ≡ old_made
        → Moves S.stands w m (attempt_commit w.run.dialect w.run.opening w.run.made (open_of m s) s m) new r old told old_made made }
    ensures full { (w : World) (m : Machine) (new : Parts S) (r : Attempted) (old told : List Said) (old_made made : List (List ℕ)) (s : ℕ) → (o : Open) → open_of m s ≡ Some o
        → ending_in w m o ≡ LogFull → IsLeft S.stands w (kept_of (side_of m)) new r true false told (refusal_told old (codes "log full")) → made ≡ old_made
        → Moves S.stands w m (attempt_commit w.run.dialect w.run.opening w.run.made (open_of m s) s m) new r old told old_made made }
{}

/// START TRANSACTION begins a transaction with the modes that it names, where none is open; else it is refused in its place.
pub fn start_begins_a_transaction<S: Store>()
    ensures begins { (w : World) (m : Machine) (new : Parts S) (r : Attempted) (old told : List Said) (entry : Entry) (modes : NewModes) → is_open m entry.session ≡ false
        → IsLeft S.stands w (opened entry.session false (kept_of (side_of (named w.run.dialect w.run.opening w.run.made modes entry.session m)))) new r true false told (ok_told old None)
        → Moves S.stands w m (attempt_start w.run.dialect w.run.opening w.run.made (is_open m entry.session) modes entry m) new r old told [] [] }
    ensures refused { (w : World) (m : Machine) (new : Parts S) (r : Attempted) (old told : List Said) (entry : Entry) (modes : NewModes) → is_open m entry.session ≡ true
        → Moves S.stands w m (refused_in_place w.run.dialect w.run.opening w.run.made entry open_transaction m) new r old told [] []
        → Moves S.stands w m (attempt_start w.run.dialect w.run.opening w.run.made (is_open m entry.session) modes entry m) new r old told [] [] }
{}

/// An entry that is refused in its place is told why. A transaction that began in autocommit ends then; another one goes on, with
/// the refused statement among its own, which changed and claimed nothing.
pub fn an_entry_is_refused_in_its_place<S: Store>()
    ensures none { (w : World) (m : Machine) (new : Parts S) (r : Attempted) (old told : List Said) (entry : Entry) (why : Text) → IsRefused w m entry why → open_of m entry.session ≡ None
        → IsLeft S.stands w (kept_of (side_of m)) new r true false told (refusal_told old why)
        → Moves S.stands w m (refused_in_place w.run.dialect w.run.opening w.run.made entry why m) new r old told [] [] }
    ensures auto { (w : World) (m : Machine) (new : Parts S) (r : Attempted) (old told : List Said) (entry : Entry) (why : Text) → IsRefused w m entry why → (o : Open)
        → open_of m entry.session ≡ Some o → o.auto ≡ true → IsLeft S.stands w (left entry.session (kept_of (side_of m))) new r true true told (refusal_told old why)
        → Moves S.stands w m (refused_in_place w.run.dialect w.run.opening w.run.made entry why m) new r old told [] [] }
    ensures open_ { (w : World) (m : Machine) (new : Parts S) (r : Attempted) (old told : List Said) (entry : Entry) (why : Text) → IsRefused w m entry why → (o : Open)
        → open_of m entry.session ≡ Some o → o.auto ≡ false → IsNumber (length m.settings) entry.session → IsLeft S.stands w (kept_of (side_of m)) new r true false told (refusal_told old why)
        → Moves S.stands w m (refused_in_place w.run.dialect w.run.opening w.run.made entry why m) new r old told [] [] }
{}

/// A data statement that nobody is in the way of tells its rows and its reply, and its transaction goes on with its changes and its
/// claims. In autocommit the transaction ends with it: the changes are committed where they find room, and the reply has the number
/// of the commit; else the statement is refused, and nothing of it is left. No commit since
/// its transaction's start conflicts with it.
pub fn a_data_statement_goes_on_where_nobody_is_in_its_way<S: Store>()
    ensures open_ { (w : World) (m : Machine) (new : Parts S) (r : Attempted) (old told : List Said) (entry : Entry) (made : List (List ℕ)) → IsAccepted w m entry
        → is_clear w m entry ≡ true → IsUnblocked w m entry (data_outcome w m entry).foot → (data_own w m entry).auto ≡ false
        → IsLeft S.stands w (kept_after w m entry) new r true false told (outcome_told old (data_outcome w m entry).rows (data_outcome w m entry).reply None)
        → Moves S.stands w m (attempt_data w.run.dialect w.run.opening w.run.made entry m) new r old told made made }
    ensures unchanged { (w : World) (m : Machine) (new : Parts S) (r : Attempted) (old told : List Said) (entry : Entry) (old_made made : List (List ℕ)) → IsAccepted w m entry
        → is_clear w m entry ≡ true → IsUnblocked w m entry (data_outcome w m entry).foot → (data_own w m entry).auto ≡ true → ending_in w m (data_after w m entry) ≡ Empty
        → IsLeft S.stands w (ended_with w m entry m.history.commits) new r true true told (outcome_told old (data_outcome w m entry).rows (data_outcome w m entry).reply None) → made ≡ old_made
        → Moves S.stands w m (attempt_data w.run.dialect w.run.opening w.run.made entry m) new r old told old_made made }
    ensures committed { (w : World) (m : Machine) (new : Parts S) (r : Attempted) (old told : List Said) (entry : Entry) (old_made made : List (List ℕ)) (number : ℕ) → IsAccepted w m entry
        → is_clear w m entry ≡ true → IsUnblocked w m entry (data_outcome w m entry).foot → (data_own w m entry).auto ≡ true → ending_in w m (data_after w m entry) ≡ HasRoom
        → number ≡ next_number w.run.dialect w.run.opening w.run.made m
        → IsLeft S.stands w (ended_with w m entry (m.history.commits ++ commit_of (data_after w m entry) ∷ [])) new r true true told (outcome_told old (data_outcome w m entry).rows (data_outcome w m entry).reply (Some (record { 0 = number })))
        → made ≡ old_made ++ w.text m.history.commits (commit_of (data_after w m entry)) ∷ []
        → Moves S.stands w m (attempt_data w.run.dialect w.run.opening w.run.made entry m) new r old told old_made made }
    ensures many { (w : World) (m : Machine) (new : Parts S) (r : Attempted) (old told : List Said) (entry : Entry) (old_made made : List (List ℕ)) → IsAccepted w m entry
        → is_clear w m entry ≡ true → IsUnblocked w m entry (data_outcome w m entry).foot → (data_own w m entry).auto ≡ true → ending_in w m (data_after w m entry) ≡ TooManyChanges
        → IsLeft S.stands w (ended_with w m entry m.history.commits) new r true true told (refusal_told old (codes "changes")) → made ≡ old_made
        → Moves S.stands w m (attempt_data w.run.dialect w.run.opening w.run.made entry m) new r old told old_made made }
    ensures full { (w : World) (m : Machine) (new : Parts S) (r : Attempted) (old told : List Said) (entry : Entry) (old_made made : List (List ℕ)) → IsAccepted w m entry
        → is_clear w m entry ≡ true → IsUnblocked w m entry (data_outcome w m entry).foot → (data_own w m entry).auto ≡ true → ending_in w m (data_after w m entry) ≡ LogFull
        → IsLeft S.stands w (ended_with w m entry m.history.commits) new r true true told (refusal_told old (codes "log full")) → made ≡ old_made
        → Moves S.stands w m (attempt_data w.run.dialect w.run.opening w.run.made entry m) new r old told old_made made }
{}

/// A data statement that others are in the way of waits for these, in an open transaction and without its changes. Where waits lead
/// back to its session from one of them, it is refused, and its transaction ends.
pub fn a_data_statement_that_is_held_up_waits<S: Store>()
    ensures deadlock { (w : World) (m : Machine) (new : Parts S) (r : Attempted) (old told : List Said) (entry : Entry) (back : ℕ) → IsAccepted w m entry
        → IsBlocked w m entry → leading_back m entry.session (blockers m entry.session (data_wanted w m entry)) ≡ Some back
        → IsLeft S.stands w (ended_with w m entry m.history.commits) new r true true told (refusal_told old (deadlock_words m back))
        → Moves S.stands w m (attempt_data w.run.dialect w.run.opening w.run.made entry m) new r old told [] [] }
    ensures waits { (w : World) (m : Machine) (new : Parts S) (r : Attempted) (old told : List Said) (entry : Entry) (set : Blockers) → IsAccepted w m entry
        → IsBlocked w m entry → leading_back m entry.session (blockers m entry.session (data_wanted w m entry)) ≡ None
        → (blockers m entry.session (data_wanted w m entry)) ≡ filter (has set) (ascending 1 (length m.names))
        → IsLeft S.stands w (kept_waiting w m entry (blockers m entry.session (data_wanted w m entry))) new r false false told (old ++ said.WaitsFor set ∷ [])
        → Moves S.stands w m (attempt_data w.run.dialect w.run.opening w.run.made entry m) new r old told [] [] }
{}

/// A data statement that nobody is in the way of, but that conflicts with a commit since the start of its transaction, is refused, and
/// its transaction ends. The first such commit is told.
pub fn a_data_statement_is_refused_where_a_commit_conflicts<S: Store>()
    ensures { (w : World) (m : Machine) (new : Parts S) (r : Attempted) (old told : List Said) (entry : Entry) → IsAccepted w m entry → IsUnblocked w m entry (data_outcome w m entry).foot → is_clear w m entry ≡ false
        → IsLeft S.stands w (ended_with w m entry m.history.commits) new r true true told (refusal_told old (conflict_words w.run.dialect w.run.opening w.run.made m (data_own w m entry) (data_wanted w m entry)))
        → Moves S.stands w m (attempt_data w.run.dialect w.run.opening w.run.made entry m) new r old told [] [] }
{}

/// Where no transaction is open, a definition is committed at once where the database has room for one change more and the log for
/// its text, and the reply has the number of the commit. Else, and where it defines nothing, it is refused and nothing is changed.
pub fn a_definition_is_committed_where_it_finds_room<S: Store>()
    ensures refused { (w : World) (m : Machine) (new : Parts S) (r : Attempted) (old told : List Said) (entry : Entry) (made : List (List ℕ)) (why : Text)
        → w.run.dialect.definition (present w m.history.commits) entry.text ≡ Err why → IsLeft S.stands w (kept_of (side_of m)) new r true false told (refusal_told old why)
        → Moves S.stands w m (defined w.run.dialect w.run.opening w.run.made (w.run.dialect.definition (present w m.history.commits) entry.text) [] entry m) new r old told made made }
    ensures many { (w : World) (m : Machine) (new : Parts S) (r : Attempted) (old told : List Said) (entry : Entry) (made : List (List ℕ)) → (definition : Definition)
        → w.run.dialect.definition (present w m.history.commits) entry.text ≡ Ok definition → has_room (present w m.history.commits) (change.Define definition ∷ []) ≡ false
        → IsLeft S.stands w (kept_of (side_of m)) new r true false told (refusal_told old (codes "changes"))
        → Moves S.stands w m (defined w.run.dialect w.run.opening w.run.made (w.run.dialect.definition (present w m.history.commits) entry.text) [] entry m) new r old told made made }
    ensures full { (w : World) (m : Machine) (new : Parts S) (r : Attempted) (old told : List Said) (entry : Entry) (made : List (List ℕ)) → (definition : Definition)
        → w.run.dialect.definition (present w m.history.commits) entry.text ≡ Ok definition → has_room (present w m.history.commits) (change.Define definition ∷ []) ≡ true
        → w.run.dialect.has_log_room m.history.commits (definition_commit entry.session definition) ≡ false
        → IsLeft S.stands w (kept_of (side_of m)) new r true false told (refusal_told old (codes "log full"))
        → Moves S.stands w m (defined w.run.dialect w.run.opening w.run.made (w.run.dialect.definition (present w m.history.commits) entry.text) [] entry m) new r old told made made }
    ensures committed { (w : World) (m : Machine) (new : Parts S) (r : Attempted) (old told : List Said) (entry : Entry) (old_made made : List (List ℕ)) (number : ℕ) → (definition : Definition)
        → w.run.dialect.definition (present w m.history.commits) entry.text ≡ Ok definition → m.history.open_ ≡ [] → has_room (present w m.history.commits) (change.Define definition ∷ []) ≡ true
        → w.run.dialect.has_log_room m.history.commits (definition_commit entry.session definition) ≡ true → number ≡ next_number w.run.dialect w.run.opening w.run.made m
        → IsLeft S.stands w (record (kept_of (side_of m)) { kind = control_after definition m.history.kind; commits = m.history.commits ++ definition_commit entry.session definition ∷ [] }) new r true false told (ok_told old (Some (record { 0 = number })))
        → made ≡ old_made ++ w.text m.history.commits (definition_commit entry.session definition) ∷ []
        → Moves S.stands w m (defined w.run.dialect w.run.opening w.run.made (w.run.dialect.definition (present w m.history.commits) entry.text) [] entry m) new r old told old_made made }
{}

/// A definition that is held up waits for all these sessions, or is refused where waits lead back to its session from one of them.
pub fn a_definition_that_is_held_up_waits<S: Store>()
    ensures deadlock { (w : World) (m : Machine) (new : Parts S) (r : Attempted) (old told : List Said) (entry : Entry) (back : ℕ) (list : List ℕ)
        → IsLeft S.stands w (kept_of (side_of m)) new r true false told (refusal_told old (deadlock_words m back))
        → Moves S.stands w m (held_up w.run.dialect w.run.opening w.run.made (Some back) list [] entry m) new r old told [] [] }
    ensures waits { (w : World) (m : Machine) (new : Parts S) (r : Attempted) (old told : List Said) (entry : Entry) (set : Blockers) (list : List ℕ)
        → list ≡ filter (has set) (ascending 1 (length m.names))
        → IsLeft S.stands w (with_waits (waits_for entry.session list m.waits) (kept_of (side_of m))) new r false false told (old ++ said.WaitsFor set ∷ [])
        → Moves S.stands w m (held_up w.run.dialect w.run.opening w.run.made None list [] entry m) new r old told [] [] }
{}

/// In each state that a run comes to the database is valid, and so is what an open transaction reads, with its changes on it. The
/// model of transactions is the database's.
pub fn open_transactions_leave_a_valid_database()
    ensures alone { (w : World) → IsWorld w → (h : History) → IsHistory w.run.dialect w.run.opening h → w.run.dialect.is_valid (present w h.commits) ≡ true }
    ensures model { (w : World) → IsWorld w → (h : History) → IsHistory w.run.dialect w.run.opening h → h.kind ≡ (present w h.commits).control }
    ensures with_its_changes { (w : World) → IsWorld w → (h : History) → IsHistory w.run.dialect w.run.opening h → (e : Event)
        → IsValidFor w h (own e.session (fresh h.kind e (length h.commits)) h.open_) }
{}

/// A database has a change at least for each of its commits, and a number of 64 bits for each that finds room.
pub fn commits_have_numbers()
    ensures count { (w : World) (commits : List Commit) (k : Commit) → 1 ≤ length k.changes → w.run.made + length commits ≤ (present w commits).count
        → w.run.made + length (commits ++ k ∷ []) ≤ (present w (commits ++ k ∷ [])).count }
    ensures number { (w : World) (commits : List Commit) (changes : List Change) → 1 ≤ length changes → has_room (present w commits) changes ≡ true
        → w.run.made + length commits ≤ (present w commits).count → w.run.made + length commits + 1 < 2 ^ 64 }
{}

/// Where a session's transaction ends, its changes are taken from the database if they are on it, and those of another session's stay.
/// Then the parts stand for what is kept without this transaction, and behind a commit with the commit.
pub fn an_end_leaves_the_others<S: Store>()
    ensures own { (w : World) (k : Kept) (old new : Parts S) (s : ℕ) → IsHere old s → Rests old w k → IsEnded old.holding new.holding s → new.seated ≡ old.seated → old.seated.0 ≡ s
        → new.commits ≡ old.commits → new.spans ≡ old.spans → S.stands new.store w k.commits [] → Fits S.stands new w (left s k) }
    ensures other { (w : World) (k : Kept) (old new : Parts S) (s : ℕ) → IsHere old s → Rests old w k → IsEnded old.holding new.holding s → new.seated ≡ old.seated → (old.seated.0 == s) ≡ false
        → new.commits ≡ old.commits → new.spans ≡ old.spans → S.stands new.store w k.commits (changes_of old old.seated.0) → Fits S.stands new w (left s k) }
    ensures committed { (w : World) (k : Kept) (old new : Parts S) (s : ℕ) → IsHere old s → Rests old w k → IsEnded old.holding new.holding s → new.seated ≡ old.seated → (o : Open) → old.seated.0 ≡ s
        → o.session ≡ s → 1 ≤ length o.trace.changes → new.commits ≡ old.commits + 1 → IsSpanned new.spans w.run.made k.kind (k.commits ++ commit_of o ∷ []) (others s k.open_)
        → S.stands new.store w (k.commits ++ commit_of o ∷ []) []
        → Fits S.stands new w (committed o.session (commit_of o) k) }
{}

/// Where a session's transaction begins, the parts stand for what is kept with it, and the changes of no session are others than before.
/// Where the changes of another session are put on the database, they stand for the same.
pub fn a_beginning_changes_no_rows<S: Store>()
    ensures begins { (w : World) (k : Kept) (old new : Parts S) (s : ℕ) (auto : Bool) (start : CommitNo) → IsHere old s → is_open_at old.holding s ≡ false
        → IsBegun old.holding new.holding s auto start → Rests old w k → start.0 ≡ length k.commits → new.seated ≡ old.seated → new.commits ≡ old.commits → new.spans ≡ old.spans
        → Rests new w (opened s auto k) }
    ensures changes { (w : World) (k : Kept) (old new : Parts S) (s : ℕ) (auto : Bool) (start : CommitNo) → IsHere old s → is_open_at old.holding s ≡ false
        → IsBegun old.holding new.holding s auto start → Holds old.holding k → start.0 ≡ length k.commits → (b : ℕ) → IsSession b → changes_of new b ≡ changes_of old b }
    ensures seated { (w : World) (k : Kept) (old new : Parts S) → Rests old w k → new.holding ≡ old.holding → new.commits ≡ old.commits → new.spans ≡ old.spans → IsSession new.seated.0
        → S.stands new.store w k.commits (changes_of old new.seated.0) → Fits S.stands new w k }
{}

/// Where sessions wait for open transactions alone and never in a circle, they do so behind any attempt of an entry.
pub fn waits_stay_in_order()
    ensures ways { (w : World) (names : List Text) (side : Side) (h : Holding) (is_first : Bool) (entry : Entry) → length side.settings ≡ length names → Holds h (kept_of side)
        → Ways (length side.settings) side.waits → ((a b : ℕ) → side.waits a b ≡ true → opens b side.history.open_ ≡ true) → IsNumber (length side.settings) entry.session
        → Ways (length side.settings) (attempted w.run names is_first entry side).next.waits }
    ensures open_ { (w : World) (names : List Text) (side : Side) (h : Holding) (is_first : Bool) (entry : Entry) → length side.settings ≡ length names → Holds h (kept_of side)
        → Ways (length side.settings) side.waits → ((a b : ℕ) → side.waits a b ≡ true → opens b side.history.open_ ≡ true) → IsNumber (length side.settings) entry.session → (a b : ℕ)
        → (attempted w.run names is_first entry side).next.waits a b ≡ true → opens b (attempted w.run names is_first entry side).next.history.open_ ≡ true }
{}

/// The texts of commits that are made one behind the other are those of all of them.
pub fn texts_of_commits_are_put_together()
    ensures then { (w : World) (a b c : List Commit) (x y z : List (List ℕ)) → Makes w a b x y → Makes w b c y z → Makes w a c x z }
    ensures since { (w : World) (a b : List Commit) (old made : List (List ℕ)) → Makes w a b old made → made ≡ old ++ texts_since w a b }
{}
