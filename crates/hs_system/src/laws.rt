//! Laws of database systems, each on a function that does nothing. Proofs of other crates cite them from `Grounded.antt`,
//! `Ahead.antt` and `Remade.antt` in `proofs/`.
ghost use Rattle.std.specs.Prelude.{◌≡◌, ◌≤◌, ℕ, ◌++◌, List, length, None, count_by};
ghost use Rattle.hs_entries.specs.declared.item.Item.{Item};
ghost use Rattle.hs_logged.specs.Redone.{State};
ghost use Rattle.hs_run.specs.Items.{AreTold};
ghost use Rattle.hs_run.specs.Running.{IsTrue};
ghost use Rattle.hs_seams.specs.Stores.{IsWorld};
ghost use Rattle.hs_system.specs.Answers.{answers_among, lines_of};
ghost use Rattle.hs_system.specs.Openings.{IsSound, Make, behind_at, first, future_at, texts_of, world_of};
ghost use Rattle.hs_turns.specs.Laws.{is_item};

use crate::governed::Governed;

/// What texts of a log made is regular, and has as many changes as there are texts at least.
pub fn what_texts_make_is_regular<S: Governed>()
    ensures regular { (texts : List (List ℕ)) (at : State) → Make S.system (first S.system) texts at → S.regular at.database }
    ensures counted { (texts : List (List ℕ)) (at : State) → Make S.system (first S.system) texts at → length texts ≤ at.database.count }
{}

/// A run over what texts made, where no constraint is violated, is in a world that keeps what its model of
/// transactions promises.
pub fn a_run_over_a_log_has_a_world<S: Governed>()
    ensures { (texts : List (List ℕ)) (at : State) (made size : ℕ) → IsSound S.system texts at → IsWorld (world_of S.system at made size) }
{}

/// What is ahead of such a run tells of no commit that isn't made, over whatever items.
pub fn a_run_over_a_log_tells_the_truth<S: Governed>()
    ensures begins { (at : State) (made size : ℕ) → (future_at S.system at made size).commits ≡ made }
    ensures is_true { (texts : List (List ℕ)) (at : State) (made size : ℕ) → IsSound S.system texts at → IsTrue (future_at S.system at made size) }
{}

/// Among the lines of all its turns each item, where all are such as an input has, has one that begins with `ok` or `refused` behind
/// its session.
pub fn a_run_over_a_log_answers_each_item<S: Governed>()
    ensures { (texts : List (List ℕ)) (at : State) (made size : ℕ) (items : List Item) (number : ℕ) → IsSound S.system texts at → AreTold items → answers_among number (lines_of S.system at made size items) ≡ count_by (is_item number) items }
{}

/// The first ones of the texts of its commits, however many, make again what there is behind its first commits, and this violates no
/// constraint.
pub fn what_a_run_over_a_log_makes_is_made_again<S: Governed>()
    ensures { (texts : List (List ℕ)) (at : State) (made size : ℕ) (items : List Item) (front rest : List (List ℕ)) → IsSound S.system texts at → texts_of S.system at made size items ≡ front ++ rest
        → Make S.system at front (behind_at S.system at made size items (length front)) × (S.system.violated (behind_at S.system at made size items (length front)).database ≡ None) }
{}
