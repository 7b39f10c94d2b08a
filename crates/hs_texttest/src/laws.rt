//! Laws of the test of texts, each on a function that does nothing. Proofs of other crates cite them from `Commits.antt` in
//! `proofs/`.
ghost use Rattle.hs_logged.specs.Over.{TestsTexts};
ghost use Rattle.hs_tabletext.specs.Conditions.{Wording};
ghost use Rattle.hs_texttest.specs.Commits.{has_text};
ghost use Rattle.hs_texttest.specs.Definitions.{ConditionTest};
ghost use Rattle.hs_texttest.specs.Told.{TestsConditions};

use hs_committext::Conditions;

/// Where a test tells which conditions have a text, `has_text` tells which commits have one.
pub fn texts_of_commits_are_tested<C: Conditions>(conditions: &C)
    ensures { (test : ConditionTest) → TestsConditions (C.wording conditions.now) test → TestsTexts (C.wording conditions.now) (has_text (C.wording conditions.now) test) }
{}
