//! Laws of the texts of commits, each on a function that does nothing.
ghost use Rattle.std.specs.Prelude.{◌≡◌, ℕ, List, Option, IsUtf8};
ghost use Rattle.std.specs.List.{All};
ghost use Rattle.hs_base.specs.declared.numbers.SessionNo.{SessionNo};
ghost use Rattle.hs_plan.specs.declared.change.Change.{Change};
ghost use Rattle.hs_schema.specs.Catalogue.{Things};
ghost use Rattle.hs_schema.specs.Whole.{IsWhole};
ghost use Rattle.hs_committext.specs.Changes.{IsPrintable};
ghost use Rattle.hs_log.specs.CommitText.{IsSession};
ghost use Rattle.hs_committext.specs.Commits.{changes_text, commit_text, HaveText, IsCommitText};

use crate::Conditions;

/// Beside a whole catalogue each commit has one text behind a text of the session before, which `commit_text` is. So what is
/// written is read back as it was, and what is read is written again byte by byte.
pub fn a_commit_has_one_text<C: Conditions>(conditions: &C)
    ensures there { (things : Things) (before : Option SessionNo) (session : SessionNo) (changes : List Change) → IsWhole things → IsSession session.0 → HaveText (C.wording conditions.now) things changes → IsUtf8 (changes_text (C.wording conditions.now) things changes) → IsCommitText (C.wording conditions.now) things before (commit_text (C.wording conditions.now) things before session changes) session changes }
    ensures only { (things : Things) (before : Option SessionNo) (text : List ℕ) (session : SessionNo) (changes : List Change) → IsWhole things → IsCommitText (C.wording conditions.now) things before text session changes → HaveText (C.wording conditions.now) things changes × (text ≡ commit_text (C.wording conditions.now) things before session changes) }
{}

/// A commit that has a text can be written, and so can what is read.
pub fn a_commit_that_has_a_text_can_be_written<C: Conditions>(conditions: &C)
    ensures lawful { (things : Things) (changes : List Change) → HaveText (C.wording conditions.now) things changes → All (IsPrintable (C.wording conditions.now) things) changes }
    ensures read { (things : Things) (before : Option SessionNo) (text : List ℕ) (session : SessionNo) (changes : List Change) → IsCommitText (C.wording conditions.now) things before text session changes → All (IsPrintable (C.wording conditions.now) things) changes }
{}
