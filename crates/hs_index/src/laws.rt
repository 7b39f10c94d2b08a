//! Laws of sets of rows, of equal keys, and of the index of a table, each on a function that does nothing. Proofs of
//! other crates cite them from `RowSets.antt` and `Indexed.antt` in `proofs/`.
ghost use Rattle.std.specs.Prelude.{◌≡◌, ◌↔◌, ◌&&◌, ◌||◌, ℕ, true, false, not, List, [], map, Some, None};
ghost use Rattle.std.specs.FinMap.{empty, get, insert, remove};
ghost use Rattle.hs_base.specs.declared.numbers.RowNo.{RowNo};
ghost use Rattle.hs_values.specs.declared.value.Value.{Value};
ghost use Rattle.hs_values.specs.Key.{key_of};
ghost use Rattle.hs_index.specs.Keys.{key_in, has_null, same_key};
ghost use Rattle.hs_index.specs.RowSets.{IsAscending, is_row, has_row, with_row, without_row};
ghost use Rattle.hs_index.specs.Rows.{Keyed, rows_with, Exchanges, Puts, Takes};
ghost use Rattle.hs_index.specs.Table.{Rows, IsIndexOf};

/// A set with a row more has that row and those that it had, and a set but for one row has those that it had but for
/// that one; both ascend where the set does.
pub fn sets_have_their_rows()
    ensures more { (rows : List RowNo) (row other : RowNo) → has_row (with_row row rows) other ≡ (is_row other row || has_row rows other) }
    ensures less { (rows : List RowNo) (row other : RowNo) → IsAscending rows → has_row (without_row row rows) other ≡ (not (is_row other row) && has_row rows other) }
    ensures more_ascends { (rows : List RowNo) (row : RowNo) → IsAscending rows → IsAscending (with_row row rows) }
    ensures less_ascends { (rows : List RowNo) (row : RowNo) → IsAscending rows → IsAscending (without_row row rows) }
{}

/// Two keys are equal exactly where their normal forms are identical, and then both have a NULL, or neither.
pub fn equal_keys_have_one_form()
    ensures form { (a b : List Value) → (same_key a b ≡ true) ↔ (map key_of a ≡ map key_of b) }
    ensures nulls { (a b : List Value) → same_key a b ≡ true → has_null a ≡ has_null b }
{}

/// The index of a table without rows has none. Where a table gets a row, or loses one, and the row is put into its
/// index under the key that it has, or taken out from under it, the index is that of the table as it is then. So it is
/// where a row gets another number, which is put in the place of the first. A row whose key has a NULL changes nothing.
pub fn the_index_of_a_table_is_kept()
    ensures none { (columns : List ℕ) (keyed : Keyed) → ((key : List Value) → rows_with keyed key ≡ []) → IsIndexOf columns empty keyed }
    ensures put { (columns : List ℕ) (table : Rows) (old new : Keyed) (row : List Value) (r : RowNo) → IsIndexOf columns table old → get table r.0 ≡ None → has_null (key_in columns row) ≡ false → Puts old new (key_in columns row) r → IsIndexOf columns (insert table r.0 row) new }
    ensures put_null { (columns : List ℕ) (table : Rows) (keyed : Keyed) (row : List Value) (r : RowNo) → IsIndexOf columns table keyed → get table r.0 ≡ None → has_null (key_in columns row) ≡ true → IsIndexOf columns (insert table r.0 row) keyed }
    ensures taken { (columns : List ℕ) (table : Rows) (old new : Keyed) (row : List Value) (r : RowNo) → IsIndexOf columns table old → get table r.0 ≡ Some row → ((key : List Value) → IsAscending (rows_with old key)) → Takes old new (key_in columns row) r → IsIndexOf columns (remove table r.0) new }
    ensures taken_null { (columns : List ℕ) (table : Rows) (keyed : Keyed) (row : List Value) (r : RowNo) → IsIndexOf columns table keyed → get table r.0 ≡ Some row → has_null (key_in columns row) ≡ true → IsIndexOf columns (remove table r.0) keyed }
    ensures exchanged { (columns : List ℕ) (table : Rows) (old new : Keyed) (row : List Value) (from to : RowNo) → IsIndexOf columns table old → get table from.0 ≡ Some row → get (remove table from.0) to.0 ≡ None → ((key : List Value) → IsAscending (rows_with old key)) → has_null (key_in columns row) ≡ false → Exchanges old new (key_in columns row) from to → IsIndexOf columns (insert (remove table from.0) to.0 row) new }
    ensures exchanged_null { (columns : List ℕ) (table : Rows) (keyed : Keyed) (row : List Value) (from to : RowNo) → IsIndexOf columns table keyed → get table from.0 ≡ Some row → get (remove table from.0) to.0 ≡ None → has_null (key_in columns row) ≡ true → IsIndexOf columns (insert (remove table from.0) to.0 row) keyed }
{}
