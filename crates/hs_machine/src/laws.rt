// Laws of lines and of machines, which say that their definitions mean what they are to mean.
ghost use Rattle.std.specs.Prelude.{◌≡◌, ℕ, ◌+◌, ◌<◌, ◌≤◌, ◌^◌, Bool, true, List, ◌∷◌, ◌++◌, Option, None, Some, length, [], codes};
ghost use Rattle.hs_entries.specs.Parts.{lacks};
ghost use Rattle.hs_values.specs.declared.value.Value.{Value};
ghost use Rattle.hs_machine.specs.declared.refusal.Refusal.{Refusal as Why};
ghost use Rattle.hs_machine.specs.Acknowledged.{IsAcks, AcknowledgesAtMost, IsPlain, ArePlain, acks, acknowledged};
ghost use Rattle.hs_machine.specs.Lines.{Line, RowOf, OkOf, RefusedOf, printed, printed_line, text_of};
ghost use Rattle.hs_machine.specs.Machine.{Machine, Turn, IsLawful, IsTelling, after, whole, followed, rest_of};

/// What printed lines acknowledge is what they say: the greatest n for which a line ends in ` committed n` is the
/// greatest commit of a reply. It is so of plain lines; of numbers with more than 64 digits only that it isn't more.
pub fn lines_acknowledge_what_they_say()
    ensures all { (lines : List Line) → ArePlain lines → acks lines < 10 ^ 64 → IsAcks (printed lines) (acks lines) }
    ensures most { (lines : List Line) → ArePlain lines → AcknowledgesAtMost (printed lines) (acks lines) }
{}

/// A front of an output acknowledges no commit that the whole doesn't.
pub fn a_front_acknowledges_no_more()
    ensures { (front rest : List ℕ) (most : ℕ) → AcknowledgesAtMost (front ++ rest) most → AcknowledgesAtMost front most }
{}

/// A plain line ends with its only line feed.
pub fn lines_end_once()
    ensures { (line : Line) → IsPlain line → lacks 10 (text_of line) ≡ true }
{}

/// The line of a row is no line of a reply.
pub fn rows_are_no_replies()
    ensures done { (number : ℕ) (session : List ℕ) (row : List Value) (count committed : Option ℕ) → printed_line (RowOf number session row) ≡ printed_line (OkOf number session count committed) → ⊥ }
    ensures refused { (number : ℕ) (session : List ℕ) (row : List Value) (why : Why) → printed_line (RowOf number session row) ≡ printed_line (RefusedOf number session why) → ⊥ }
{}

/// Every run comes to its end.
pub fn runs_end<S, C>()
    ensures { (m : Machine S C) (s : S) → IsLawful m → m.turn (whole m s).next ≡ None }
{}

/// However many turns are taken beyond the weight, they come to the same.
pub fn all_is_told_in_as_many_turns_as_the_weight<S, C>()
    ensures { (m : Machine S C) (s : S) (n : ℕ) → IsLawful m → m.weight s ≤ n → after m n s ≡ whole m s }
{}

/// A turn tells the front of what is left, and makes the first of the commits that are left. So do several turns.
pub fn runs_go_on_turn_by_turn<S, C>()
    ensures one { (m : Machine S C) (s : S) (t : Turn S C) → IsLawful m → m.turn s ≡ Some t → whole m s ≡ followed t (whole m t.next) }
    ensures several { (m : Machine S C) (s : S) (n : ℕ) → IsLawful m → whole m s ≡ followed (after m n s) (whole m (after m n s).next) }
    ensures rest { (m : Machine S C) (s : S) (t : Turn S C) → IsLawful m → m.turn s ≡ Some t → rest_of m s ≡ t.lines ++ rest_of m t.next }
{}

/// So many turns count the commits that they make, and acknowledge none that isn't made.
pub fn runs_acknowledge_what_they_made<S, C>()
    ensures counts { (m : Machine S C) (s : S) (n : ℕ) → IsLawful m → m.commits (after m n s).next ≡ m.commits s + length (after m n s).commits }
    ensures tells { (m : Machine S C) (is_sound : S → Bool) (s : S) (n : ℕ) → IsLawful m → IsTelling m is_sound → is_sound s ≡ true → ArePlain (after m n s).lines × (acks (after m n s).lines ≤ m.commits (after m n s).next) }
{}
