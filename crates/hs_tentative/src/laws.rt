//! Laws of the changes that writing statements name, each on a function that does nothing. Proofs of other crates cite them
//! from `NewRows.antt` in `proofs/`.
ghost use Rattle.std.specs.Prelude.{◌≡◌, ℕ, false, List, map, Ok};
ghost use Rattle.hs_index.specs.Keys.{value_at};
ghost use Rattle.hs_plan.specs.declared.definition.Column.{Column};
ghost use Rattle.hs_plan.specs.declared.plan.Assignment.{Assignment};
ghost use Rattle.hs_plan.specs.declared.plan.NewValue.{NewValue};
ghost use Rattle.hs_sentences.specs.Asking.{is_one_of};
ghost use Rattle.hs_values.specs.declared.value.Value.{Value};
ghost use Rattle.hs_tentative.specs.NewRows.{Evaluate, default_of, inserted, taken_in, updated};

/// A column that an INSERT leaves out has its default, NULL where it has none, and one that an UPDATE doesn't assign has
/// the value that it had.
pub fn other_columns_are_left()
    ensures inserted { (evaluate : Evaluate) (columns : List Column) (places : List ℕ) (tuple : List NewValue) (row : List Value) (p : ℕ) → inserted evaluate columns places tuple ≡ Ok row → is_one_of places p ≡ false → value_at row p ≡ default_of columns p }
    ensures taken_in { (columns : List Column) (places : List ℕ) (given row : List Value) (p : ℕ) → taken_in columns places given ≡ Ok row → is_one_of places p ≡ false → value_at row p ≡ default_of columns p }
    ensures updated { (evaluate : Evaluate) (columns : List Column) (assignments : List Assignment) (old row : List Value) (p : ℕ) → updated evaluate columns assignments old ≡ Ok row → is_one_of (map (λ a. a.column) assignments) p ≡ false → value_at row p ≡ value_at old p }
{}
