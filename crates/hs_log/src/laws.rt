// Laws of the texts of commits.
ghost use Rattle.std.specs.Prelude.{◌≡◌, ℕ, List, Option, None, Some};
ghost use Rattle.hs_log.specs.CommitText.{IsSession, AreLines, commit_text, split_of};

/// The text of a commit is split into its session and the lines of its changes, and so no other commit has the same text
/// behind the same one.
pub fn commit_texts_are_split()
    ensures split { (before : Option ℕ) (session : ℕ) (lines : List ℕ) → IsSession session → AreLines lines → split_of before (commit_text before session lines) ≡ Some (session, lines) }
    ensures only { (before : Option ℕ) (session other : ℕ) (lines more : List ℕ) → IsSession session → IsSession other → AreLines lines → AreLines more → commit_text before session lines ≡ commit_text before other more → (session ≡ other) × (lines ≡ more) }
{}

/// What a text is split into makes it again, byte by byte. A text that isn't split is that of no commit there.
pub fn split_texts_are_made()
    ensures text { (before : Option ℕ) (text : List ℕ) (session : ℕ) (lines : List ℕ) → split_of before text ≡ Some (session, lines) → text ≡ commit_text before session lines }
    ensures lawful { (before : Option ℕ) (text : List ℕ) (session : ℕ) (lines : List ℕ) → split_of before text ≡ Some (session, lines) → IsSession session × AreLines lines }
    ensures none { (before : Option ℕ) (text : List ℕ) (session : ℕ) (lines : List ℕ) → split_of before text ≡ None → IsSession session → AreLines lines → text ≡ commit_text before session lines → ⊥ }
{}
