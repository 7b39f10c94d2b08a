//! Laws of canonical texts of changes, each on a function that does nothing.
ghost use Rattle.std.specs.Prelude.{◌≡◌, ℕ, List};
ghost use Rattle.hs_plan.specs.declared.change.Change.{Change};
ghost use Rattle.hs_schema.specs.Catalogue.{Things};
ghost use Rattle.hs_schema.specs.Whole.{IsWhole};
ghost use Rattle.hs_committext.specs.Changes.{change_text, IsChange, IsChangeText, IsPrintable};

use hs_tabletext::Conditions;

/// Beside a whole catalogue each change that has a text has one, which `change_text` is. So what is printed is read back as
/// it was, and what is read is printed again byte by byte.
pub fn a_change_has_one_text<C: Conditions>(conditions: &C)
    ensures there { (things : Things) (change : Change) → IsWhole things → IsChange (C.wording conditions.now) things change → IsChangeText (C.wording conditions.now) things (change_text (C.wording conditions.now) things change) change }
    ensures only { (things : Things) (text : List ℕ) (change : Change) → IsWhole things → IsChangeText (C.wording conditions.now) things text change → IsChange (C.wording conditions.now) things change × (text ≡ change_text (C.wording conditions.now) things change) }
{}

/// What has a text can be printed, and so can what is read.
pub fn a_change_that_has_a_text_can_be_printed<C: Conditions>(conditions: &C)
    ensures lawful { (things : Things) (change : Change) → IsChange (C.wording conditions.now) things change → IsPrintable (C.wording conditions.now) things change }
    ensures read { (things : Things) (text : List ℕ) (change : Change) → IsChangeText (C.wording conditions.now) things text change → IsPrintable (C.wording conditions.now) things change }
{}
