//! Laws of what turns tell, each on a function that does nothing. They hold of every dialect that is plain over the
//! catalogues of a run.
ghost use Rattle.std.specs.Prelude.{◌≡◌, ℕ, ◌+◌, ◌≤◌, Bool, true, List, length, Some, count_by};
ghost use Rattle.hs_turns.specs.Database.{Database};
ghost use Rattle.hs_entries.specs.declared.item.Item.{Item};
ghost use Rattle.hs_turns.specs.Each.{Each};
ghost use Rattle.hs_machine.specs.Acknowledged.{Acknowledges, AcknowledgesLines};
ghost use Rattle.hs_plainwords.specs.Answers.{answers_among};
ghost use Rattle.hs_plainwords.specs.Dialects.{IsPlainDialect};
ghost use Rattle.hs_plainwords.specs.Plain.{IsPlainLine, IsUpTo, are_called};
ghost use Rattle.hs_schema.specs.Catalogue.{Things};
ghost use Rattle.hs_turns.specs.Dialect.{Dialect};
ghost use Rattle.hs_turns.specs.Laws.{commits_told, history_after, is_item};
ghost use Rattle.hs_turns.specs.Lines.{Line, printed, replies_among};
ghost use Rattle.hs_turns.specs.Machine.{start};
ghost use Rattle.hs_turns.specs.Turns.{Turned, after, lines, turn, weight};

/// Printed plain lines acknowledge no commit beyond those of which they tell, and are whole lines.
pub fn plain_lines_acknowledge_what_they_tell()
    ensures told { (ls : List Line) (n : ℕ) → Each IsPlainLine ls → Acknowledges (printed ls) n → IsUpTo (commits_told ls) n }
    ensures whole { (ls : List Line) (most : ℕ) → Each IsPlainLine ls → ((k : ℕ) → IsUpTo (commits_told ls) k → k ≤ most) → AcknowledgesLines (printed ls) most }
{}

/// Among plain lines as many answer an item with `ok` or `refused` as reply to it.
pub fn plain_lines_answer_where_they_reply()
    ensures { (ls : List Line) (n : ℕ) → Each IsPlainLine ls → answers_among n ls ≡ replies_among n ls }
{}

/// Each line of a turn is plain.
pub fn turns_tell_plain_lines()
    ensures { (is_named : Things → Bool) (d : Dialect) (opening : Database) (made : ℕ) (items : List Item) (n : ℕ) (t : Turned) → IsPlainDialect is_named d → is_named opening.things ≡ true → are_called items ≡ true
        → turn d opening made (after d opening made n (start opening items)) ≡ Some t → Each IsPlainLine t.lines }
{}

/// A turn tells whole lines, and of no commit that isn't made by then.
pub fn turns_acknowledge_what_they_made()
    ensures { (is_named : Things → Bool) (d : Dialect) (opening : Database) (made : ℕ) (items : List Item) (n : ℕ) (t : Turned) → IsPlainDialect is_named d → is_named opening.things ≡ true → are_called items ≡ true
        → turn d opening made (after d opening made n (start opening items)) ≡ Some t → AcknowledgesLines (printed t.lines) (made + length t.next.history.commits) }
{}

/// So do all turns of a run up to any of them.
pub fn runs_acknowledge_what_they_made()
    ensures { (is_named : Things → Bool) (d : Dialect) (opening : Database) (made : ℕ) (items : List Item) (n : ℕ) → IsPlainDialect is_named d → is_named opening.things ≡ true → are_called items ≡ true
        → AcknowledgesLines (printed (lines d opening made n (start opening items))) (made + length (history_after d opening made items n).commits) }
{}

/// At the end of a run each item of the input has one line that begins with `ok` or `refused` behind its session, and no
/// item two.
pub fn each_item_is_answered_once()
    ensures { (is_named : Things → Bool) (d : Dialect) (opening : Database) (made : ℕ) (items : List Item) (n : ℕ) → IsPlainDialect is_named d → is_named opening.things ≡ true → are_called items ≡ true
        → answers_among n (lines d opening made (weight (start opening items)) (start opening items)) ≡ count_by (is_item n) items }
{}
