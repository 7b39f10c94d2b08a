//! Laws of the texts that commits have in the log, each on a function that does nothing. Proofs of other crates cite them from
//! `Worlds.antt` in `proofs/`.
ghost use Rattle.std.specs.Prelude.{◌≡◌, ℕ, List, [], ◌∷◌, Bool};
ghost use Rattle.hs_turns.specs.Histories.{Commit};
ghost use Rattle.hs_logged.specs.Entered.{Enters};
ghost use Rattle.hs_logged.specs.Logged.{IsBehind, IsEntered, IsLogged, changes_behind, session_of};
ghost use Rattle.hs_logged.specs.Over.{IsMadeOver, TestsTexts, TextTest};
ghost use Rattle.hs_logged.specs.declared.logbook.Logbook.{Logbook};
ghost use Rattle.hs_seams.specs.Stores.{present};
ghost use Rattle.hs_seams.specs.World.{World};

use hs_committext::Conditions;

/// At the start of a run the log is as it is then.
pub fn a_run_begins_behind_no_commit()
    ensures { (start : Logbook) (w : World) → IsBehind start w [] start }
{}

/// What is entered of a commit is what its world says: the text that it has behind the others, where the log has room for it.
pub fn a_commit_is_entered_as_its_world_says<C: Conditions>(conditions: &C)
    ensures { (start old new : Logbook) (w : World) (commits : List Commit) (k : Commit) (old_made made : List (List ℕ)) (is_made : Bool) → IsLogged (C.wording conditions.now) start w → IsBehind start w commits old
        → Enters (C.wording conditions.now) (present w commits).things (session_of k) (changes_behind w commits k) old new old_made made is_made → IsEntered start w commits k old new old_made made is_made }
{}

/// A world with the texts and the room that are functions of its opening database is one whose commits have these texts and this
/// room.
pub fn a_world_is_made_over_its_opening<C: Conditions>(conditions: &C)
    ensures { (test : TextTest) (start : Logbook) (w : World) → TestsTexts (C.wording conditions.now) test → IsMadeOver (C.wording conditions.now) test start w → IsLogged (C.wording conditions.now) start w }
{}
