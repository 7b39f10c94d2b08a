//! Laws of the list of rows on which foreign keys act, each on a function that does nothing. Proofs of other crates cite
//! them from `Ending.antt` in `proofs/`.
ghost use Rattle.std.specs.Prelude.{◌≡◌, ℕ, true, false, List, [], Option};
ghost use Rattle.hs_values.specs.declared.value.Value.{Value};
ghost use Rattle.hs_changes.specs.Settings.{Maps};
ghost use Rattle.hs_actions.specs.declared.reference.Reference.{Reference};
ghost use Rattle.hs_actions.specs.Referencing.{Keys};
ghost use Rattle.hs_actions.specs.Work.{Work, has_acted, is_left_out, act, steps, worked};

/// The list ends: after one step for each of its rows, and one for each foreign key and child row on which it hasn't
/// acted, nothing is left of it. What is reached then is reached by any number of steps after which nothing is left.
pub fn the_list_ends()
    ensures ends { (before : Maps) (keys : Keys) (work : Work) → (worked before keys work).list ≡ [] }
    ensures only { (before : Maps) (keys : Keys) (work : Work) (n : ℕ) → (steps n before keys work).list ≡ [] → steps n before keys work ≡ worked before keys work }
{}

/// A foreign key acts on a child row once. Where it acted, or the row is deleted already, nothing comes of it; else it has
/// acted then, and so it has on all rows on which it had.
pub fn a_foreign_key_acts_on_a_child_row_once()
    ensures not_again { (before : Maps) (key : Reference) (new : Option (List Value)) (work : Work) (row : ℕ) → has_acted work.acted key.place row ≡ true → act before key new work row ≡ work }
    ensures acted { (before : Maps) (key : Reference) (new : Option (List Value)) (work : Work) (row : ℕ) → is_left_out key work row ≡ false → has_acted (act before key new work row).acted key.place row ≡ true }
    ensures stays { (before : Maps) (key : Reference) (new : Option (List Value)) (work : Work) (row place other : ℕ) → has_acted work.acted place other ≡ true → has_acted (act before key new work row).acted place other ≡ true }
{}
