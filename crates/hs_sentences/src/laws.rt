//! Laws of what constraints say of rows, each on a function that does nothing. Proofs of other crates cite them from
//! `Looking.antt`, `Local.antt` and `FirstViolated.antt` in `proofs/`.
ghost use Rattle.std.specs.Prelude.{◌≡◌, ◌↔◌, ℕ, true, false, List, Option, Some};
ghost use Rattle.std.specs.FinMap.{get};
ghost use Rattle.hs_changes.specs.Settings.{Maps};
ghost use Rattle.hs_sentences.specs.Asking.{Test, any_row, is_one_of};
ghost use Rattle.hs_sentences.specs.Sentences.{is_double, is_orphan};
ghost use Rattle.hs_sentences.specs.Violations.{Checks, Touched, TouchesOnly, AllHold, first_violated, first_violated_by_touched};
ghost use Rattle.hs_index.specs.Keys.{key_in, has_null, same_key};
ghost use Rattle.hs_index.specs.Table.{Rows, has_key};
ghost use Rattle.hs_schema.specs.Catalogue.{Things};
ghost use Rattle.hs_values.specs.declared.value.Value.{Value};

/// A row of a table passes a test exactly where there is such a row.
pub fn a_table_is_its_rows()
    ensures { (test : Test) (rows : Rows) → (any_row test rows ≡ true) ↔ ((number : ℕ) × (row : List Value) × (get rows number ≡ Some row) × (test number row ≡ true)) }
{}

/// No two rows have equal keys without NULL exactly where no row is a double; and each row without NULL in its foreign
/// key has a row of the parent with that key exactly where no row is an orphan.
pub fn sentences_say_what_constraints_ask()
    ensures unique { (columns : List ℕ) (rows : Rows) → (any_row (is_double columns rows) rows ≡ false) ↔ ((a b : ℕ) (row its : List Value) → get rows a ≡ Some row → get rows b ≡ Some its → has_null (key_in columns row) ≡ false → same_key (key_in columns row) (key_in columns its) ≡ true → a ≡ b) }
    ensures foreign { (columns parent_columns : List ℕ) (children parents : Rows) → (any_row (is_orphan columns parent_columns parents) children ≡ false) ↔ ((number : ℕ) (row : List Value) → get children number ≡ Some row → has_null (key_in columns row) ≡ false → (parent : ℕ) × (its : List Value) × (get parents parent ≡ Some its) × (same_key (key_in columns row) (key_in parent_columns its) ≡ true)) }
{}

/// Where no touched row had or has a key, the rows with that key are as they were.
pub fn untouched_keys_stay()
    ensures { (columns touched : List ℕ) (before after : Rows) (key : List Value) → ((row : ℕ) → is_one_of touched row ≡ false → get after row ≡ get before row) → ((row : ℕ) → is_one_of touched row ≡ true → (has_key columns key (get before row) ≡ false) × (has_key columns key (get after row) ≡ false)) → (row : ℕ) → has_key columns key (get after row) ≡ has_key columns key (get before row) }
{}

/// Where all constraints held before, the touched rows and those that have their keys tell which constraint is the
/// first that is violated, and how.
pub fn the_touched_rows_tell_the_first_violated()
    ensures { (checks : Checks) (things : Things) (touched : Touched) (before after : Maps) → TouchesOnly touched before after → AllHold checks things before → first_violated checks things touched after ≡ first_violated_by_touched checks things touched before after }
{}
