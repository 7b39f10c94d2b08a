//! What the definitions of a row's bytes promise, as functions that do nothing and have the laws as their
//! contracts. The proofs are in `proofs/laws`, from `proofs/Rows.antt`.
ghost use Rattle.std.specs.Prelude.{◌≡◌, Some, List, ℕ};
ghost use Rattle.hs_values.specs.declared.value.Value.{Value};
ghost use Rattle.hs_values.specs.declared.sql_type.SqlType.{SqlType};
ghost use Rattle.hs_rowcodec.specs.Encoding.{AreBytes, Encodes};
ghost use Rattle.hs_rowcodec.specs.Reading.{row_of};

/// At most one row of given types has these bytes, and a row has one encoding.
pub fn rows_and_encodings_determine_each_other()
    ensures one_row { (types : List SqlType) (a b : List Value) (bytes : List ℕ) → Encodes types a bytes → Encodes types b bytes → a ≡ b }
    ensures one_encoding { (types : List SqlType) (row : List Value) (a b : List ℕ) → Encodes types row a → Encodes types row b → a ≡ b }
{}

/// The row that is read from the left is the one that the bytes encode, and is found exactly where there is one.
pub fn the_row_that_is_read_is_the_encoded_one()
    ensures read { (types : List SqlType) (row : List Value) (bytes : List ℕ) → Encodes types row bytes → row_of types bytes ≡ Some row }
    ensures encoded { (types : List SqlType) (row : List Value) (bytes : List ℕ) → AreBytes bytes → row_of types bytes ≡ Some row → Encodes types row bytes }
{}
