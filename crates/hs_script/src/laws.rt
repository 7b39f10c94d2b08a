//! Laws of the groups of a slot, each on a function that does nothing.
ghost use Rattle.std.specs.Prelude.{◌≡◌, ◌<◌, ◌^◌, ℕ, List, []};
ghost use Rattle.hs_committext.specs.Lines.{AreLinesOf};
ghost use Rattle.hs_schema.specs.Catalogue.{Things};
ghost use Rattle.hs_script.specs.Definitions.{Numbered, Follow, IsCatalogueText, definitions_text, all_made};
ghost use Rattle.hs_script.specs.Rows.{Shelf, IsRowsText, rows_text};
ghost use Rattle.hs_script.specs.declared.stored_row.StoredRow.{StoredRow as TheRow};

use crate::{Conditions, Rules};

/// Definitions that fit one behind another, with numbers that rise, have a text, which is read as the catalogue that they make.
/// And what is read is the text of such definitions, byte by byte.
pub fn a_catalogue_has_one_text<C: Conditions, R: Rules>(conditions: &C, rules: &R)
    ensures there { (most : ℕ) (made : List Numbered) → most < 2 ^ 64 → Follow (C.wording conditions.now) (R.may rules.now) most 0 [] made → IsCatalogueText (C.wording conditions.now) (R.may rules.now) most (definitions_text (C.wording conditions.now) [] made) (all_made [] made) }
    ensures only { (most : ℕ) (text : List ℕ) (all : Things) → IsCatalogueText (C.wording conditions.now) (R.may rules.now) most text all → (made : List Numbered) × (text ≡ definitions_text (C.wording conditions.now) [] made) × (all ≡ all_made [] made) }
{}

/// Rows have one text, which `rows_text` is. So what is read is written again byte by byte.
pub fn rows_have_one_text()
    ensures { (shelf : Shelf) (most : ℕ) (text : List ℕ) (rows : List TheRow) → IsRowsText shelf most text rows → text ≡ rows_text shelf rows }
{}
