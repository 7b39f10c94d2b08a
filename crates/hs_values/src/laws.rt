//! Laws of the orders, of keys, of types and of faults, each on a function that does nothing. Proofs of
//! other crates cite them from `specs/TotalOrder.antt` and from `Stable.antt`, `Bags.antt`, `KeyedRows.antt`,
//! `Keys.antt`, `Assigned.antt`, `OneType.antt` and `Faults.antt` in `proofs/`.
ghost use Rattle.std.specs.Prelude.{◌≡◌, ◌≢◌, ◌↔◌, ◌⊎◌, ◌≤◌, Bool, true, List, map};
ghost use Rattle.std.specs.Cmp.{IsTotalOrder};
ghost use Rattle.std.specs.declared.cmp.Ordering.TheVariants.{Less, Equal};
ghost use Rattle.std.specs.List.Sorted.{IsPermutation, IsSorted, IsStable};
ghost use Rattle.std.specs.List.{All, Contains};
ghost use Rattle.hs_values.specs.declared.fault.EvalFault.{EvalFault};
ghost use Rattle.hs_values.specs.declared.value.Value.{Value};
ghost use Rattle.hs_values.specs.declared.value.Value.TheVariants as v;
ghost use Rattle.hs_values.specs.declared.sql_type.SqlType.{SqlType};
ghost use Rattle.hs_values.specs.Fault.{number_of, lesser};
ghost use Rattle.hs_values.specs.Lawful.{IsLawful};
ghost use Rattle.hs_values.specs.SqlType.{fits_of, row_fits, assign_of};
ghost use Rattle.hs_values.specs.Key.{key_of};
ghost use Rattle.hs_values.specs.Order.{order_of, row_order_of, column_order, keyed_order_of};
ghost use Rattle.hs_values.specs.Sorted.{keyed_rows, sorted_rows};

/// The order of values is a total order of all of them: each ties with itself, the answer turns round
/// with the operands, what is below a lower one is below, and what ties is alike to all others.
pub fn values_are_ordered()
    ensures total { IsTotalOrder order_of }
    ensures itself { (a : Value) → order_of a a ≡ Equal }
{}

/// So is the order of rows, and so are those with flags for descending columns. In such a column NULL
/// stands first, and all else the other way round. Rows that tie by flags tie without them.
pub fn rows_are_ordered()
    ensures total { IsTotalOrder row_order_of }
    ensures itself { (a : List Value) → row_order_of a a ≡ Equal }
    ensures by_flags { (flags : List Bool) → IsTotalOrder (keyed_order_of flags) }
    ensures null_first { (descending : Bool) (a : Value) → a ≢ v.Null → column_order descending v.Null a ≡ Less }
    ensures turned { (a b : Value) → a ≢ v.Null → b ≢ v.Null → column_order true a b ≡ order_of b a }
    ensures ties { (flags : List Bool) (a b : List Value) → (keyed_order_of flags a b ≡ Equal) ↔ (row_order_of a b ≡ Equal) }
{}

/// Sorted rows are the same rows, in their order, those that tie as they stood; and no other list is so.
/// Without flags the order is that of rows, ascending.
pub fn rows_have_one_order()
    ensures same { (flags : List Bool) (rows : List (List Value)) → IsPermutation rows (keyed_rows flags rows) }
    ensures in_order { (flags : List Bool) (rows : List (List Value)) → IsSorted (keyed_order_of flags) (keyed_rows flags rows) }
    ensures stable { (flags : List Bool) (rows : List (List Value)) → IsStable (keyed_order_of flags) rows (keyed_rows flags rows) }
    ensures only { (flags : List Bool) (rows others : List (List Value)) → IsSorted (keyed_order_of flags) others → IsStable (keyed_order_of flags) rows others → others ≡ keyed_rows flags rows }
    ensures ascending { (rows : List (List Value)) → IsSorted row_order_of (sorted_rows rows) }
{}

/// Two values are equal exactly where their keys are identical, values stand in the order of their
/// keys, and rows are equal exactly where the keys in them are identical.
pub fn equal_values_have_one_key()
    ensures values { (a b : Value) → (order_of a b ≡ Equal) ↔ (key_of a ≡ key_of b) }
    ensures in_order { (a b : Value) → order_of (key_of a) (key_of b) ≡ order_of a b }
    ensures rows { (a b : List Value) → (row_order_of a b ≡ Equal) ↔ (map key_of a ≡ map key_of b) }
{}

/// What is assigned is one of the type's values, and a value that is one of them is assigned as it is.
pub fn values_of_a_type_are_assigned_as_they_are()
    ensures only { (t : SqlType) (a b : Value) → assign_of t a ≡ Ok b → fits_of t b ≡ true }
    ensures kept { (t : SqlType) (a : Value) → fits_of t a ≡ true → assign_of t a ≡ Ok a }
{}

/// A value of a type is lawful, and so is what is assigned: a whole number of 64 bits, a decimal within its
/// digits and places, a date or a timestamp of the years 1 to 9999. So are the values of a row of its types.
pub fn values_of_a_type_are_lawful()
    ensures fits { (t : SqlType) (a : Value) → fits_of t a ≡ true → IsLawful a }
    ensures assigned { (t : SqlType) (a b : Value) → assign_of t a ≡ Ok b → IsLawful b }
    ensures row { (types : List SqlType) (row : List Value) → row_fits types row ≡ true → All IsLawful row }
{}

/// Values of one type that tie are identical, and so are rows of the same types.
pub fn ties_of_one_type_are_identical()
    ensures values { (t : SqlType) (a b : Value) → fits_of t a ≡ true → fits_of t b ≡ true → order_of a b ≡ Equal → a ≡ b }
    ensures rows { (types : List SqlType) (a b : List Value) → row_fits types a ≡ true → row_fits types b ≡ true → row_order_of a b ≡ Equal → a ≡ b }
{}

/// Rows in another order are the same rows when sorted, by flags or without, where rows that tie are
/// identical: which they are where all are of the same types.
pub fn a_bag_has_one_order()
    ensures telling { (flags : List Bool) (rows others : List (List Value)) → IsPermutation rows others → ((a b : List Value) → Contains rows a → Contains rows b → row_order_of a b ≡ Equal → a ≡ b) → keyed_rows flags rows ≡ keyed_rows flags others }
    ensures typed { (flags : List Bool) (types : List SqlType) (rows others : List (List Value)) → IsPermutation rows others → All (λ row. row_fits types row ≡ true) rows → keyed_rows flags rows ≡ keyed_rows flags others }
{}

/// A fault is known by its number. Of two faults the lesser is one of them and has no greater number than
/// either, and of several it is the same in whatever order they come.
pub fn the_least_fault_counts()
    ensures known { (a b : EvalFault) → number_of a ≡ number_of b → a ≡ b }
    ensures either { (a b : EvalFault) → (lesser a b ≡ a) ⊎ (lesser a b ≡ b) }
    ensures least { (a b : EvalFault) → (number_of (lesser a b) ≤ number_of a) × (number_of (lesser a b) ≤ number_of b) }
    ensures turned { (a b : EvalFault) → lesser a b ≡ lesser b a }
    ensures grouped { (a b c : EvalFault) → lesser (lesser a b) c ≡ lesser a (lesser b c) }
{}
