//! Laws of logs that are read again, each on a function that does nothing. Proofs of other crates cite them from `Kept.antt` and
//! `Replaying.antt` in `proofs/`.
ghost use Rattle.std.specs.Prelude.{◌≡◌, ◌↔◌, ℕ, List, [], ◌++◌, Bool, true, None, Some};
ghost use Rattle.hs_turns.specs.Database.{Database, apply};
ghost use Rattle.hs_turns.specs.Histories.{Commit};
ghost use Rattle.hs_logged.specs.Logged.{IsLogged};
ghost use Rattle.hs_logged.specs.declared.logbook.Logbook.{Logbook};
ghost use Rattle.hs_plan.specs.declared.change.Change.{Change};
ghost use Rattle.hs_logged.specs.Kept.{AreKept, left_by};
ghost use Rattle.hs_logged.specs.Reading.{Reader, Reads, Test, Tests, redone};
ghost use Rattle.hs_logged.specs.Redone.{AreRedone, IsRedone, State};
ghost use Rattle.hs_seams.specs.World.{World, texts_from};

use crate::restored::Restored;
use hs_committext::Conditions;

/// The texts that the commits of a run have in the log make the database that these commits left, where the log had room for each,
/// and its changes may be made again where they were made.
pub fn what_is_logged_is_made_again<C: Conditions, D: Restored>(conditions: &C)
    ensures { (start : Logbook) (w : World) (commits : List Commit) → IsLogged (C.wording conditions.now) start w → AreKept w D.takes [] commits → AreRedone (C.wording conditions.now) D.takes (left_by start w []) (texts_from w [] commits) (left_by start w commits) }
{}

/// Texts behind others make of what those made what all of them make.
pub fn texts_are_made_one_behind_another<C: Conditions, D: Restored>(conditions: &C)
    ensures { (first middle last : State) (texts more : List (List ℕ)) → AreRedone (C.wording conditions.now) D.takes first texts middle → AreRedone (C.wording conditions.now) D.takes middle more last → AreRedone (C.wording conditions.now) D.takes first (texts ++ more) last }
{}

/// What each commit that may be made leaves so, a log leaves so: a valid database, where only such commits may be made.
pub fn what_commits_keep_is_kept<C: Conditions, D: Restored>(conditions: &C)
    ensures { (is_valid : Database → Bool) → ((db : Database) (changes : List Change) → is_valid db ≡ true → D.takes db changes → is_valid (apply db changes) ≡ true)
        → (first last : State) (texts : List (List ℕ)) → AreRedone (C.wording conditions.now) D.takes first texts last → is_valid first.database ≡ true → is_valid last.database ≡ true }
{}

/// Where a function reads texts, and a test tells which changes may be made, what a text makes is a function too, and it is what is
/// answered (`Replay::redo`).
pub fn what_a_text_makes_is_a_function<C: Conditions, D: Restored>(conditions: &C)
    ensures some { (reader : Reader) (test : Test) → Reads (C.wording conditions.now) reader → Tests D.takes test → (at next : State) (text : List ℕ) → (redone reader test at text ≡ Some next) ↔ IsRedone (C.wording conditions.now) D.takes at text next }
    ensures none { (reader : Reader) (test : Test) → Reads (C.wording conditions.now) reader → Tests D.takes test → (at : State) (text : List ℕ) → (redone reader test at text ≡ None) ↔ ((next : State) → ¬ (IsRedone (C.wording conditions.now) D.takes at text next)) }
{}
