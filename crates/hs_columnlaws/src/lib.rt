//! A law of the canonical texts of names, values and columns, on a function that does nothing: none of them has a control
//! character, so that each stands in one line. Proofs of other crates cite it from `CleanValues.antt` and
//! `CleanColumns.antt` in `proofs/`.
#![tactic(auto)]

ghost use Rattle.std.specs.Prelude.{◌≡◌, ℕ, List, true, false};
ghost use Rattle.hs_columntext.specs.Columns.{column_text, IsColumn};
ghost use Rattle.hs_nametext.specs.Names.{name_text, is_name};
ghost use Rattle.hs_plan.specs.declared.definition.Column.{Column};
ghost use Rattle.hs_values.specs.declared.value.Value.{Value};
ghost use Rattle.hs_values.specs.Lawful.{IsLawful};
ghost use Rattle.hs_valuetext.specs.Texts.{has_control};
ghost use Rattle.hs_valuetext.specs.Values.{value_text};

/// The texts of names, of values and of columns have no control character.
pub fn a_column_stands_in_one_line()
    ensures name { (name : List ℕ) → is_name name ≡ true → has_control (name_text name) ≡ false }
    ensures value { (value : Value) → IsLawful value → has_control (value_text value) ≡ false }
    ensures column { (column : Column) → IsColumn column → has_control (column_text column) ≡ false }
{}
