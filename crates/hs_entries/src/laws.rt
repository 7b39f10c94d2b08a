// Laws of the items, in the words of the input's rules.
ghost use Rattle.std.specs.Prelude.{◌≡◌, ℕ, ◌+◌, true, false, List, [], ◌∷◌, ◌++◌};
ghost use Rattle.hs_entries.specs.Entry.{item_of, cut_item_of};
ghost use Rattle.hs_entries.specs.Items.{items};
ghost use Rattle.hs_entries.specs.Parts.{Part, spelling, lacks, lacks_close, is_part, last_of_all, begins_entry, is_entry_of, unclosed};
ghost use Rattle.hs_entries.specs.Place.{is_white};

/// Before an entry white space is skipped, and so are a `--` comment up to its line feed or the end of the
/// input and a `/*` comment up to its `*/`. Where nothing stands behind them no entry comes.
pub fn white_space_and_comments_are_skipped()
    ensures nothing { (n : ℕ) → items n [] ≡ [] }
    ensures white { (n w : ℕ) (bytes : List ℕ) → is_white w ≡ true → items n (w ∷ bytes) ≡ items n bytes }
    ensures line { (n : ℕ) (comment bytes : List ℕ) → lacks 10 comment ≡ true → items n (45 ∷ 45 ∷ comment ++ 10 ∷ bytes) ≡ items n bytes }
    ensures last_line { (n : ℕ) (comment : List ℕ) → lacks 10 comment ≡ true → items n (45 ∷ 45 ∷ comment) ≡ [] }
    ensures block { (n : ℕ) (comment bytes : List ℕ) → lacks_close false comment ≡ true → items n (47 ∷ 42 ∷ comment ++ 42 ∷ 47 ∷ bytes) ≡ items n bytes }
    ensures unclosed { (n : ℕ) (comment : List ℕ) → lacks_close false comment ≡ true → items n (47 ∷ 42 ∷ comment) ≡ cut_item_of n (47 ∷ 42 ∷ comment) ∷ [] }
{}

/// An entry runs to the first `;` that stands outside its texts, quoted names and comments, or to the end of
/// the input. A text, a quoted name or a comment of it that isn't closed also runs to the end of the input.
pub fn entries_run_to_their_semicolon()
    ensures whole { (n : ℕ) (first : Part) (parts : List Part) (bytes : List ℕ) → is_entry_of first parts ≡ true →
        items n (spelling (first ∷ parts) ++ 59 ∷ bytes) ≡ item_of n (spelling (first ∷ parts) ++ 59 ∷ []) ∷ items (n + 1) bytes }
    ensures alone { (n : ℕ) (bytes : List ℕ) → items n (59 ∷ bytes) ≡ item_of n (59 ∷ []) ∷ items (n + 1) bytes }
    ensures cut { (n : ℕ) (first : Part) (parts : List Part) → is_entry_of first parts ≡ true →
        items n (spelling (first ∷ parts)) ≡ cut_item_of n (spelling (first ∷ parts)) ∷ [] }
    ensures unclosed { (n : ℕ) (first : Part) (parts : List Part) (part : Part) → is_entry_of first parts ≡ true → is_part (last_of_all 0 (first ∷ parts)) part ≡ true →
        items n (spelling (first ∷ parts) ++ unclosed part) ≡ cut_item_of n (spelling (first ∷ parts) ++ unclosed part) ∷ [] }
    ensures unclosed_first { (n : ℕ) (part : Part) → begins_entry part ≡ true → is_part 0 part ≡ true → items n (unclosed part) ≡ cut_item_of n (unclosed part) ∷ [] }
{}
