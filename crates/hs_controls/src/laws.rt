//! Laws of settings and savepoints, definitions, new sessions, closed ones and waiters, each on a function that does
//! nothing.
ghost use Rattle.std.specs.Prelude.{◌≡◌, ◌≤◌, ◌<◌, ◌+◌, ℕ, Bool, true, false, List, [], ◌∷◌, ◌++◌, Option, None, Some, length, filter, codes};
ghost use Rattle.std.specs.Option.{option_map};
ghost use Rattle.hs_ast.specs.declared.session.Isolation.{Isolation};
ghost use Rattle.hs_ast.specs.declared.session.Modes.{Modes as NewModes};
ghost use Rattle.hs_base.specs.declared.numbers.CommitNo.{CommitNo};
ghost use Rattle.hs_base.specs.declared.numbers.SessionNo.{SessionNo};
ghost use Rattle.hs_claims.specs.declared.blockers.Blockers.{Blockers};
ghost use Rattle.hs_claims.specs.declared.claim.Claim.{Claim};
ghost use Rattle.hs_claims.specs.Blockers.{has};
ghost use Rattle.hs_claims.specs.Held.{blocks as claims_block};
ghost use Rattle.hs_claims.specs.Session.{IsSession};
ghost use Rattle.hs_turns.specs.Definitions.{control_after};
ghost use Rattle.hs_turns.specs.Events.{definition_commit};
ghost use Rattle.hs_turns.specs.Histories.{Commit, Open, commit_of};
ghost use Rattle.hs_holding.specs.declared.holding.Holding.{Holding};
ghost use Rattle.hs_holding.specs.Held.{is_open_at, seat_of};
ghost use Rattle.hs_lines.specs.declared.words.Words.{Words as Said};
ghost use Rattle.hs_lines.specs.declared.words.Words.TheVariants as said;
ghost use Rattle.hs_plan.specs.declared.definition.Definition.{Definition};
ghost use Rattle.hs_schema.specs.Catalogue.{Text};
ghost use Rattle.hs_seams.specs.declared.attempted.Attempted.{Attempted};
ghost use Rattle.hs_seams.specs.Calls.{IsAttempted, MakesTexts, behind};
ghost use Rattle.hs_seams.specs.Stores.{present, seen};
ghost use Rattle.hs_seams.specs.World.{World};
ghost use Rattle.hs_sessions.specs.declared.control.Control.{Control};
ghost use Rattle.hs_sides.specs.Sides.{Side, alone, answered_by, attempted, behind_close, side_of, with_new};
ghost use Rattle.hs_tied.specs.Holds.{Holds, IsOwn};
ghost use Rattle.hs_tied.specs.Kept.{Kept, committed, left, with_waits};
ghost use Rattle.hs_tied.specs.Waiting.{Ways};
ghost use Rattle.hs_turns.specs.Attempts.{Empty, Fits as HasRoom, LogFull, TooManyChanges, attempt_control, attempt_data, attempt_definition, blockers, bound_definition, deadlock_words, defined, defining, leading_back, next_number, open_sessions, refused_in_place, seen_by};
ghost use Rattle.hs_turns.specs.Dialect.{Request as request, open_transaction};
ghost use Rattle.hs_turns.specs.Machine.{Machine, is_open, open_of};
ghost use Rattle.hs_turns.specs.Waiting.{Entry, Waits, answered, ascending, freed, waits_for};
ghost use Rattle.hs_turns.proofs.Opened.{has as opens};
ghost use Rattle.hs_waits.specs.Waits.{IsFirstLeading};
ghost use Rattle.hs_moves.specs.Answers.{IsLeft, refusal_told};
ghost use Rattle.hs_moves.specs.Called.{IsBegun};
ghost use Rattle.hs_moves.specs.Evaluated.{data_own};
ghost use Rattle.hs_moves.specs.Fits.{Fits, IsHere, Rests, changes_of, kept_of};
ghost use Rattle.hs_moves.specs.Moves.{Moves, ending_in};
ghost use Rattle.hs_moves.specs.Parts.{Parts};
ghost use Rattle.hs_moves.specs.Refused.{IsRefused};
ghost use Rattle.hs_controls.specs.Called.{IsAdmitted, IsAnswered, IsHeldUp};
ghost use Rattle.hs_controls.specs.Controls.{IsSet, begins_first};
ghost use Rattle.hs_controls.specs.Sights.{IsQuiet, IsRead, behind_own, refusal_at};

use hs_seams::Store;

/// A statement on settings or savepoints is answered at once. It is done by `Holding::control` and, where its session
/// is seated, by `Store::back` to as many changes as it leaves. SAVEPOINT begins a transaction before, by
/// `Holding::begin`, where none is open and autocommit is off.
pub fn a_statement_on_settings_is_done_at_once<S: Store>()
    ensures at_once { (w : World) (m : Machine) (old new : Parts S) (r : Attempted) (old_told told : List Said) (control : Control) (s : ℕ) (made : List (List ℕ)) → IsHere old s → Rests old w (kept_of (side_of m))
        → begins_first control (seat_of old.holding s) ≡ false → IsSet S.stands w m.history.commits control s old old.holding new r old_told told
        → Moves S.stands w m (attempt_control w.run.dialect w.run.opening w.run.made control s m) new r old_told told made made }
    ensures begins { (w : World) (m : Machine) (old new : Parts S) (begun : Holding) (start : CommitNo) (r : Attempted) (old_told told : List Said) (control : Control) (s : ℕ) (made : List (List ℕ)) → IsHere old s → Rests old w (kept_of (side_of m))
        → begins_first control (seat_of old.holding s) ≡ true → IsBegun old.holding begun s false start → start.0 ≡ length m.history.commits → IsSet S.stands w m.history.commits control s old begun new r old_told told
        → Moves S.stands w m (attempt_control w.run.dialect w.run.opening w.run.made control s m) new r old_told told made made }
{}

/// What an entry is refused for in its place refuses it as a statement of the open transaction of its session: by its
/// text alone; as START TRANSACTION; and as a data statement or a definition by what `Store::refusal` answers, where
/// its session is seated.
pub fn entries_are_refused_as_statements<S: Store>()
    ensures faulty { (w : World) (m : Machine) (entry : Entry) (why : Text) → w.run.dialect.request entry.text ≡ request.Faulty why → IsRefused w m entry why }
    ensures starts { (w : World) (m : Machine) (entry : Entry) (modes : NewModes) → w.run.dialect.request entry.text ≡ request.Starts modes → IsRefused w m entry open_transaction }
    ensures data { (w : World) (m : Machine) (old : Parts S) (entry : Entry) (why : Text) (read : List Commit) → IsHere old entry.session → Rests old w (kept_of (side_of m)) → IsRead w m entry read
        → w.run.dialect.request entry.text ≡ request.OfData → refusal_at old w read entry ≡ Some why → IsRefused w m entry why }
    ensures definition { (w : World) (m : Machine) (old : Parts S) (entry : Entry) (why : Text) (read : List Commit) → IsHere old entry.session → Rests old w (kept_of (side_of m)) → IsRead w m entry read
        → w.run.dialect.request entry.text ≡ request.OfDefinition → refusal_at old w read entry ≡ Some why → IsRefused w m entry why }
{}

/// A data statement's transaction, open or begun with it, is what `Holding::own` and `Holding::changes` answer, and it
/// sees the database with these changes. It is refused in its place by what `Store::refusal` or `Store::evaluate`
/// answers there, where its session is seated.
pub fn a_data_statement_sees_the_changes_of_its_session<S: Store>()
    ensures own { (w : World) (m : Machine) (old : Parts S) (entry : Entry) → IsHere old entry.session → Rests old w (kept_of (side_of m)) → IsOwn m.history.kind (seat_of old.holding entry.session) (data_own w m entry) }
    ensures seen { (w : World) (m : Machine) (old : Parts S) (entry : Entry) (read : List Commit) → IsHere old entry.session → Rests old w (kept_of (side_of m)) → IsRead w m entry read
        → seen_by w.run.dialect w.run.opening w.run.made m (data_own w m entry) ≡ seen w read (changes_of old entry.session) }
    ensures refused { (w : World) (m : Machine) (old new : Parts S) (r : Attempted) (old_told told : List Said) (old_made made : List (List ℕ)) (entry : Entry) (why : Text) (read : List Commit) → IsHere old entry.session → Rests old w (kept_of (side_of m))
        → IsRead w m entry read → refusal_at old w read entry ≡ Some why → Moves S.stands w m (refused_in_place w.run.dialect w.run.opening w.run.made entry why m) new r old_told told old_made made
        → Moves S.stands w m (attempt_data w.run.dialect w.run.opening w.run.made entry m) new r old_told told old_made made }
{}

/// A definition is refused in its place by what `Store::refusal` answers, where its session is seated; else it is
/// bound.
pub fn a_definition_is_refused_or_bound<S: Store>()
    ensures refused { (w : World) (m : Machine) (old new : Parts S) (r : Attempted) (old_told told : List Said) (old_made made : List (List ℕ)) (is_first : Bool) (entry : Entry) (why : Text) (read : List Commit) → IsHere old entry.session → Rests old w (kept_of (side_of m))
        → IsRead w m entry read → refusal_at old w read entry ≡ Some why → Moves S.stands w m (refused_in_place w.run.dialect w.run.opening w.run.made entry why m) new r old_told told old_made made
        → Moves S.stands w m (attempt_definition w.run.dialect w.run.opening w.run.made is_first entry m) new r old_told told old_made made }
    ensures bound { (w : World) (m : Machine) (old new : Parts S) (r : Attempted) (old_told told : List Said) (old_made made : List (List ℕ)) (is_first : Bool) (entry : Entry) (read : List Commit) → IsHere old entry.session → Rests old w (kept_of (side_of m))
        → IsRead w m entry read → refusal_at old w read entry ≡ None → Moves S.stands w m (bound_definition w.run.dialect w.run.opening w.run.made is_first entry m) new r old_told told old_made made
        → Moves S.stands w m (attempt_definition w.run.dialect w.run.opening w.run.made is_first entry m) new r old_told told old_made made }
{}

/// At its first attempt a definition commits its session's own transaction before, where that finds room; else it is
/// refused. Behind the commit, or the end of a transaction without changes, `defining` is what is left to be done: it
/// begins with the words of the commit and its text, and whatever it comes to, a transaction ended. A later attempt of
/// a definition that waits commits nothing.
pub fn a_definition_commits_its_own_changes_first<S: Store>()
    ensures none { (w : World) (m : Machine) (new : Parts S) (r : Attempted) (old told : List Said) (old_made made : List (List ℕ)) (entry : Entry) → open_of m entry.session ≡ None
        → Moves S.stands w m (defining w.run.dialect w.run.opening w.run.made m.history.open_ [] entry m) new r old told old_made made
        → Moves S.stands w m (bound_definition w.run.dialect w.run.opening w.run.made true entry m) new r old told old_made made }
    ensures unchanged { (w : World) (m : Machine) (new : Parts S) (r rest : Attempted) (old told : List Said) (old_made made : List (List ℕ)) (entry : Entry) (o : Open) → open_of m entry.session ≡ Some o → ending_in w m o ≡ Empty
        → Moves S.stands w (behind_own w m entry.session) (defining w.run.dialect w.run.opening w.run.made (behind_own w m entry.session).history.open_ [] entry (behind_own w m entry.session)) new rest old told old_made made
        → r.is_final ≡ rest.is_final → r.has_ended ≡ true → Moves S.stands w m (bound_definition w.run.dialect w.run.opening w.run.made true entry m) new r old told old_made made }
    ensures committed { (w : World) (m : Machine) (new : Parts S) (r rest : Attempted) (old told : List Said) (old_made own_made made : List (List ℕ)) (entry : Entry) (o : Open) (number : ℕ) → open_of m entry.session ≡ Some o → ending_in w m o ≡ HasRoom
        → number ≡ next_number w.run.dialect w.run.opening w.run.made m → own_made ≡ old_made ++ w.text m.history.commits (commit_of o) ∷ []
        → Moves S.stands w (behind_own w m entry.session) (defining w.run.dialect w.run.opening w.run.made (behind_own w m entry.session).history.open_ [] entry (behind_own w m entry.session)) new rest (old ++ said.First (record { 0 = number }) ∷ []) told own_made made
        → r.is_final ≡ rest.is_final → r.has_ended ≡ true → Moves S.stands w m (bound_definition w.run.dialect w.run.opening w.run.made true entry m) new r old told old_made made }
    ensures many { (w : World) (m : Machine) (new : Parts S) (r : Attempted) (old told : List Said) (made : List (List ℕ)) (entry : Entry) (o : Open) → open_of m entry.session ≡ Some o → ending_in w m o ≡ TooManyChanges
        → IsLeft S.stands w (kept_of (side_of m)) new r true false told (refusal_told old (codes "changes"))
        → Moves S.stands w m (bound_definition w.run.dialect w.run.opening w.run.made true entry m) new r old told made made }
    ensures full { (w : World) (m : Machine) (new : Parts S) (r : Attempted) (old told : List Said) (made : List (List ℕ)) (entry : Entry) (o : Open) → open_of m entry.session ≡ Some o → ending_in w m o ≡ LogFull
        → IsLeft S.stands w (kept_of (side_of m)) new r true false told (refusal_told old (codes "log full"))
        → Moves S.stands w m (bound_definition w.run.dialect w.run.opening w.run.made true entry m) new r old told made made }
    ensures later { (w : World) (m : Machine) (new : Parts S) (r : Attempted) (old told : List Said) (old_made made : List (List ℕ)) (entry : Entry)
        → Moves S.stands w m (defining w.run.dialect w.run.opening w.run.made m.history.open_ [] entry m) new r old told old_made made
        → Moves S.stands w m (bound_definition w.run.dialect w.run.opening w.run.made false entry m) new r old told old_made made }
{}

/// What is kept behind the commit of a session's own transaction, or behind its end without changes; and waits stay in
/// order there.
pub fn an_own_commit_ends_the_transaction()
    ensures unchanged { (w : World) (m : Machine) (s : ℕ) (o : Open) → open_of m s ≡ Some o → ending_in w m o ≡ Empty → kept_of (side_of (behind_own w m s)) ≡ left s (kept_of (side_of m)) }
    ensures committed { (w : World) (m : Machine) (s : ℕ) (o : Open) → open_of m s ≡ Some o → ending_in w m o ≡ HasRoom → kept_of (side_of (behind_own w m s)) ≡ committed s (commit_of o) (kept_of (side_of m)) }
    ensures ways { (n s : ℕ) (waits : Waits) → Ways n waits → Ways n (freed s waits) }
{}

/// A definition goes on where no session has an open transaction, by `Holding::open_sessions`. Else it is held up by
/// all of them, its own session among them: by `Holding::leading_back` it is refused, or it waits by `Holding::wait`.
pub fn a_definition_waits_for_each_open_transaction<S: Store>()
    ensures quiet { (m : Machine) (h : Holding) → Holds h (kept_of (side_of m)) → IsQuiet h → m.history.open_ ≡ [] }
    ensures goes { (w : World) (m : Machine) (new : Parts S) (r : Attempted) (old told : List Said) (old_made made : List (List ℕ)) (entry : Entry) → m.history.open_ ≡ []
        → Moves S.stands w m (defined w.run.dialect w.run.opening w.run.made (w.run.dialect.definition (present w m.history.commits) entry.text) [] entry m) new r old told old_made made
        → Moves S.stands w m (defining w.run.dialect w.run.opening w.run.made m.history.open_ [] entry m) new r old told old_made made }
    ensures deadlock { (w : World) (m : Machine) (old new : Parts S) (r : Attempted) (old_told told : List Said) (made : List (List ℕ)) (entry : Entry) (set : Blockers) (back : SessionNo) → Rests old w (kept_of (side_of m))
        → Ways (length m.settings) m.waits → length m.settings ≡ length m.names → ((b : ℕ) → IsSession b → has set b ≡ is_open_at old.holding b) → IsFirstLeading old.holding.waits entry.session set (Some back)
        → IsLeft S.stands w (kept_of (side_of m)) new r true false told (refusal_told old_told (deadlock_words m back.0))
        → Moves S.stands w m (defining w.run.dialect w.run.opening w.run.made m.history.open_ [] entry m) new r old_told told made made }
    ensures waits { (w : World) (m : Machine) (old new : Parts S) (r : Attempted) (old_told told : List Said) (made : List (List ℕ)) (entry : Entry) (set : Blockers) → IsHere old entry.session → Rests old w (kept_of (side_of m))
        → Ways (length m.settings) m.waits → length m.settings ≡ length m.names → ((b : ℕ) → IsSession b → has set b ≡ is_open_at old.holding b) → (IsQuiet old.holding → ⊥) → IsFirstLeading old.holding.waits entry.session set None
        → IsHeldUp old.holding new.holding entry.session set → new.seated ≡ old.seated → new.commits ≡ old.commits → new.spans ≡ old.spans → S.stands new.store w m.history.commits (changes_of old old.seated.0)
        → r.is_final ≡ false → r.has_ended ≡ false → told ≡ old_told ++ said.WaitsFor set ∷ []
        → Moves S.stands w m (defining w.run.dialect w.run.opening w.run.made m.history.open_ [] entry m) new r old_told told made made }
{}

/// A definition that is committed by `Store::define`, where no transaction is open, changes no session. The model is the one that it
/// leaves, and no claims of commits are kept behind it.
pub fn a_definition_changes_no_session<S: Store>()
    ensures { (w : World) (k : Kept) (old new : Parts S) (session : ℕ) (definition : Definition) → Rests old w k → IsQuiet old.holding → new.holding ≡ old.holding → new.seated ≡ old.seated → new.commits ≡ old.commits + 1
        → new.spans.kind ≡ control_after definition k.kind → new.spans.made ≡ old.spans.made → new.spans.count ≡ old.spans.count + 1 → new.spans.first ≡ new.spans.count → new.spans.claims ≡ []
        → S.stands new.store w (k.commits ++ definition_commit session definition ∷ []) []
        → Fits S.stands new w (record k { kind = control_after definition k.kind; commits = k.commits ++ definition_commit session definition ∷ [] }) }
{}

/// Who is in the way of a statement, and from whom waits lead back, is what `Holding::blockers`,
/// `Holding::open_sessions` and `Holding::leading_back` answer. They are all sessions with numbers.
pub fn what_sessions_hold_tells_who_is_in_the_way()
    ensures blockers { (m : Machine) (h : Holding) → Holds h (kept_of (side_of m)) → length m.settings ≡ length m.names → (s : ℕ) (wanted : List Claim) (set : Blockers) → ((b : ℕ) → IsSession b → has set b ≡ claims_block h.claims s wanted b)
        → blockers m s wanted ≡ filter (has set) (ascending 1 (length m.names)) }
    ensures open_ { (m : Machine) (h : Holding) → Holds h (kept_of (side_of m)) → length m.settings ≡ length m.names → (set : Blockers) → ((b : ℕ) → IsSession b → has set b ≡ is_open_at h b)
        → open_sessions m ≡ filter (has set) (ascending 1 (length m.names)) }
    ensures blockers_have_numbers { (k : Kept) (h : Holding) → Holds h k → (s : ℕ) (wanted : List Claim) (set : Blockers) → ((b : ℕ) → IsSession b → has set b ≡ claims_block h.claims s wanted b) → (b : ℕ) → IsSession b → has set b ≡ true → b ≤ length k.settings }
    ensures open_have_numbers { (k : Kept) (h : Holding) → Holds h k → (set : Blockers) → ((b : ℕ) → IsSession b → has set b ≡ is_open_at h b) → (b : ℕ) → IsSession b → has set b ≡ true → b ≤ length k.settings }
    ensures leading { (m : Machine) (h : Holding) → Holds h (kept_of (side_of m)) → Ways (length m.settings) m.waits → length m.settings ≡ length m.names → (s : ℕ) (set : Blockers) (found : Option SessionNo)
        → ((b : ℕ) → IsSession b → has set b ≡ true → b ≤ length m.settings) → IsFirstLeading h.waits s set found
        → leading_back m s (filter (has set) (ascending 1 (length m.names))) ≡ option_map (λ x. x.0) found }
{}

/// Where a session begins to wait by `Holding::wait`, or waits no more by `Holding::answer`, only that is changed.
pub fn waits_change_no_rows<S: Store>()
    ensures waits { (w : World) (k : Kept) (old new : Parts S) (s n : ℕ) (set : Blockers) → IsHere old s → Rests old w k → ((b : ℕ) → IsSession b → has set b ≡ true → b ≤ n) → IsHeldUp old.holding new.holding s set
        → new.seated ≡ old.seated → new.commits ≡ old.commits → new.spans ≡ old.spans → S.stands new.store w k.commits (changes_of old old.seated.0) → Fits S.stands new w (with_waits (waits_for s (filter (has set) (ascending 1 n)) k.waits) k) }
    ensures answered { (w : World) (k : Kept) (old new : Parts S) (s : ℕ) → IsHere old s → Rests old w k → IsAnswered old.holding new.holding s
        → new.seated ≡ old.seated → new.commits ≡ old.commits → new.spans ≡ old.spans → S.stands new.store w k.commits (changes_of old old.seated.0) → Fits S.stands new w (with_waits (answered s k.waits) k) }
{}

/// A new session, by `Holding::admit` at the level that `Store::level` answers, has no open transaction and waits for
/// nobody.
pub fn a_new_session_has_the_default_level<S: Store>()
    ensures stands { (w : World) (side : Side) (old new : Parts S) (level : Isolation) → Rests old w (kept_of side) → length side.settings < 64 → level ≡ (present w side.history.commits).level → IsAdmitted level old.holding new.holding
        → new.seated ≡ old.seated → new.commits ≡ old.commits → new.spans ≡ old.spans → S.stands new.store w side.history.commits (changes_of old old.seated.0) → Fits S.stands new w (kept_of (with_new w.run side)) }
    ensures ways { (w : World) (side : Side) → Ways (length side.settings) side.waits → Ways (length (with_new w.run side).settings) (with_new w.run side).waits }
{}

/// Where a session is closed its open transaction is rolled back, by what ROLLBACK does; where it has none nothing is
/// changed.
pub fn closing_rolls_back_the_open_transaction<S: Store>()
    ensures open_ { (w : World) (names : List Text) (side : Side) (old : Parts S) (s : ℕ) → Rests old w (kept_of side) → IsSession s → is_open_at old.holding s ≡ is_open (alone names side) s }
    ensures rolled_back { (w : World) (names : List Text) (side : Side) (new : Parts S) (s : ℕ) → is_open (alone names side) s ≡ true → Fits S.stands new w (left s (kept_of side)) → Fits S.stands new w (kept_of (behind_close w.run names s side)) }
    ensures unopened { (w : World) (names : List Text) (side : Side) (new : Parts S) (s : ℕ) → is_open (alone names side) s ≡ false → Fits S.stands new w (kept_of side) → Fits S.stands new w (kept_of (behind_close w.run names s side)) }
    ensures ways { (w : World) (names : List Text) (side : Side) (s : ℕ) → Ways (length side.settings) side.waits → Ways (length (behind_close w.run names s side).settings) (behind_close w.run names s side).waits }
    ensures waited_for { (w : World) (names : List Text) (side : Side) (s : ℕ) → ((a b : ℕ) → side.waits a b ≡ true → opens b side.history.open_ ≡ true) → (a b : ℕ) → (behind_close w.run names s side).waits a b ≡ true
        → opens b (behind_close w.run names s side).history.open_ ≡ true }
{}

/// An entry that waited and is answered waits for nobody any more, by `Holding::answer`; one that is answered at its
/// first attempt, or waits on, leaves the waits as its attempt has them.
pub fn a_waiter_that_is_answered_waits_for_nobody<S: Store>()
    ensures answered { (w : World) (side : Side) (old new : Parts S) (s : ℕ) → IsHere old s → Rests old w (kept_of side) → IsAnswered old.holding new.holding s
        → new.seated ≡ old.seated → new.commits ≡ old.commits → new.spans ≡ old.spans → S.stands new.store w side.history.commits (changes_of old old.seated.0) → Fits S.stands new w (kept_of (answered_by false true s side)) }
    ensures first { (w : World) (side : Side) (new : Parts S) (s : ℕ) (final : Bool) → Fits S.stands new w (kept_of side) → Fits S.stands new w (kept_of (answered_by true final s side)) }
    ensures unanswered { (w : World) (side : Side) (new : Parts S) (s : ℕ) (is_first : Bool) → Fits S.stands new w (kept_of side) → Fits S.stands new w (kept_of (answered_by is_first false s side)) }
    ensures ways { (is_first final : Bool) (s n : ℕ) (side : Side) → Ways n side.waits → Ways n (answered_by is_first final s side).waits }
    ensures waited_for { (is_first final : Bool) (s : ℕ) (side : Side) → ((a b : ℕ) → side.waits a b ≡ true → opens b side.history.open_ ≡ true) → (a b : ℕ) → (answered_by is_first final s side).waits a b ≡ true
        → opens b (answered_by is_first final s side).history.open_ ≡ true }
{}

/// What an attempt comes to on a machine of its own is what an engine tells of it, and the texts that it makes.
pub fn an_attempt_alone_is_what_an_engine_tells<S: Store>()
    ensures told { (w : World) (names : List Text) (side : Side) (new : Parts S) (r : Attempted) (old told : List Said) (old_made made : List (List ℕ)) (is_first : Bool) (entry : Entry)
        → Moves S.stands w (alone names side) (attempted w.run names is_first entry side) new r old told old_made made → IsAttempted w names is_first entry side r old told }
    ensures stands { (w : World) (names : List Text) (side : Side) (new : Parts S) (r : Attempted) (old told : List Said) (old_made made : List (List ℕ)) (is_first : Bool) (entry : Entry)
        → Moves S.stands w (alone names side) (attempted w.run names is_first entry side) new r old told old_made made → Fits S.stands new w (kept_of (side_of (attempted w.run names is_first entry side).next)) }
    ensures texts { (w : World) (names : List Text) (side : Side) (new : Parts S) (r : Attempted) (old told : List Said) (old_made made : List (List ℕ)) (is_first : Bool) (entry : Entry)
        → Moves S.stands w (alone names side) (attempted w.run names is_first entry side) new r old told old_made made → MakesTexts w side (behind w names is_first entry side) old_made made }
{}
