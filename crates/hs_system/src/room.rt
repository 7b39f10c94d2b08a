//! Laws of the log's room in runs, each on a function that does nothing. They hold of every dialect, of every database that a run may
//! begin with, and of every input, after any number of turns. Proofs of other crates cite them from `Runs.antt` in `proofs/`.
ghost use Rattle.std.specs.Prelude.{◌≡◌, ℕ, Bool, true, List, [], ◌∷◌, ◌++◌};
ghost use Rattle.hs_turns.specs.Database.{Database};
ghost use Rattle.hs_entries.specs.declared.item.Item.{Item};
ghost use Rattle.hs_turns.specs.Histories.{Commit};
ghost use Rattle.hs_system.specs.Room.{HadRoom};
ghost use Rattle.hs_turns.specs.Dialect.{Dialect};
ghost use Rattle.hs_turns.specs.Laws.{history_after};

/// What holds of no commits, and behind a commit for which the log has room where it held before, holds of the commits of a run.
pub fn what_commits_with_room_keep_holds_in_a_run()
    ensures { (d : Dialect) (opening : Database) (made : ℕ) (items : List Item) (n : ℕ) (holds : List Commit → Bool) → holds [] ≡ true
        → ((commits : List Commit) (k : Commit) → holds commits ≡ true → d.has_log_room commits k ≡ true → holds (commits ++ k ∷ []) ≡ true) → holds (history_after d opening made items n).commits ≡ true }
{}

/// Each commit of a run had room in the log behind those before it: by COMMIT, in autocommit, of a definition, and of what a
/// session had changed before its definition.
pub fn commits_of_a_run_had_room()
    ensures { (d : Dialect) (opening : Database) (made : ℕ) (items : List Item) (n : ℕ) → HadRoom d [] (history_after d opening made items n).commits }
{}
