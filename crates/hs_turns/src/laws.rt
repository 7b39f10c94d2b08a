//! Laws of runs, each on a function that does nothing. They hold of every dialect, of every database that a run may
//! begin with, and of every input, after any number of turns. Proofs of other crates cite them from `Reached.antt`
//! and `Ends.antt` in `proofs/`.
ghost use Rattle.std.specs.Prelude.{◌≡◌, ◌<◌, ◌+◌, ℕ, true, false, List, [], ◌∷◌, length, Some, count_by, codes};
ghost use Rattle.hs_claims.specs.declared.model.ControlKind.TheVariants.{Locks, Mvcc};
ghost use Rattle.hs_turns.specs.Database.{Database};
ghost use Rattle.hs_entries.specs.declared.item.Item.{Item};
ghost use Rattle.hs_turns.specs.Histories.{state};
ghost use Rattle.hs_turns.specs.Language.{Laws, Stands};
ghost use Rattle.hs_turns.specs.Promises.{AreMade, EachEnded, IsCommitted, IsFirst, IsInOrder, IsSerial, IsSnapshot};
ghost use Rattle.hs_turns.specs.Dialect.{Dialect, language_of};
ghost use Rattle.hs_turns.specs.Laws.{IsHistory, IsOver, commits_told, history_after, is_item, owed};
ghost use Rattle.hs_turns.specs.Lines.{replies_among};
ghost use Rattle.hs_turns.specs.Machine.{Machine, is_open, start};
ghost use Rattle.hs_turns.specs.Small.{says, told_by};
ghost use Rattle.hs_turns.specs.Turns.{Turned, after, lines, turn, weight};
ghost use Rattle.hs_turns.specs.Waiting.{ascending, leads};

/// Each turn lowers what is left to do, so a run of any input comes to its end: after as many turns as its weight
/// none is left.
pub fn runs_end()
    ensures lowers { (d : Dialect) (opening : Database) (made : ℕ) (m : Machine) (t : Turned) → turn d opening made m ≡ Some t → weight t.next < weight m }
    ensures over { (d : Dialect) (opening : Database) (made : ℕ) (m : Machine) → IsOver d opening made (after d opening made (weight m) m) }
{}

/// What a run has told and what it still owes are all that it was asked: of the items with a number, as many have
/// got a reply as aren't left in the input, in the queue or among the waiters. So no item gets two.
pub fn replies_and_what_is_owed_are_all_items()
    ensures { (d : Dialect) (opening : Database) (made : ℕ) (items : List Item) (n k : ℕ)
        → replies_among n (lines d opening made k (start opening items)) + owed n (after d opening made k (start opening items)) ≡ count_by (is_item n) items }
{}

/// At the end of a run nobody waits and nothing is queued: each item of the input has got its reply, and no item two.
pub fn each_item_has_one_reply()
    ensures { (d : Dialect) (opening : Database) (made : ℕ) (items : List Item) (n : ℕ) → replies_among n (lines d opening made (weight (start opening items)) (start opening items)) ≡ count_by (is_item n) items }
{}

/// Sessions wait for open transactions alone, and never in a circle: from nobody for whom a session waits do waits
/// lead back to it.
pub fn nobody_waits_in_a_circle()
    ensures open_ { (d : Dialect) (opening : Database) (made : ℕ) (items : List Item) (n a b : ℕ) → (after d opening made n (start opening items)).waits a b ≡ true → is_open (after d opening made n (start opening items)) b ≡ true }
    ensures apart { (d : Dialect) (opening : Database) (made : ℕ) (items : List Item) (n a b : ℕ) → (after d opening made n (start opening items)).waits a b ≡ true
        → leads (length (after d opening made n (start opening items)).names) (after d opening made n (start opening items)).waits b a ≡ false }
{}

/// Each commit of a run is told once, in order, and by no line before it is made: lines tell of the numbers from
/// that behind the opening database's on, as many as there are commits by then.
pub fn each_commit_is_told_once_in_order()
    ensures { (d : Dialect) (opening : Database) (made : ℕ) (items : List Item) (n : ℕ) → commits_told (lines d opening made n (start opening items)) ≡ ascending (made + 1) (length (history_after d opening made items n).commits) }
{}

/// Waiters, the queue and the order of turns say which event comes next, and no more: the history of a run is one
/// of those that events lead to.
pub fn turns_are_events()
    ensures { (d : Dialect) (opening : Database) (made : ℕ) (items : List Item) (n : ℕ) → IsHistory d opening (history_after d opening made items n) }
{}

/// Serial: in a run a transaction at SERIALIZABLE that doesn't read its start answers as if it ran alone on the
/// commits just before its end, and changes the same. Where it was committed, the next state is what its statements
/// make of the state before, alone there.
pub fn runs_are_serial()
    ensures alone { (d : Dialect) (opening : Database) (made : ℕ) (items : List Item) (n : ℕ) → Laws (language_of d) → Stands (language_of d) opening → EachEnded (history_after d opening made items n) (IsSerial (language_of d) opening) }
    ensures in_order { (d : Dialect) (opening : Database) (made : ℕ) (items : List Item) (n : ℕ) → Laws (language_of d) → Stands (language_of d) opening → EachEnded (history_after d opening made items n) (IsInOrder (language_of d) opening) }
    ensures committed { (d : Dialect) (opening : Database) (made : ℕ) (items : List Item) (n : ℕ) → Laws (language_of d) → Stands (language_of d) opening → EachEnded (history_after d opening made items n) IsCommitted }
    ensures made_by { (d : Dialect) (opening : Database) (made : ℕ) (items : List Item) (n : ℕ) → Laws (language_of d) → Stands (language_of d) opening
        → AreMade (history_after d opening made items n).commits (history_after d opening made items n).ended }
{}

/// Prefix readers and Snapshots: in a run a transaction that reads its start answers as if it ran alone on the
/// commits before its start, and changes the same.
pub fn runs_read_snapshots()
    ensures { (d : Dialect) (opening : Database) (made : ℕ) (items : List Item) (n : ℕ) → Laws (language_of d) → Stands (language_of d) opening → EachEnded (history_after d opening made items n) (IsSnapshot (language_of d) opening) }
{}

/// First claimer: in a run a transaction at snapshot isolation puts or deletes no committed row that a commit
/// between its start and its end puts or deletes.
pub fn the_first_claimer_wins()
    ensures { (d : Dialect) (opening : Database) (made : ℕ) (items : List Item) (n : ℕ) → Laws (language_of d) → Stands (language_of d) opening → EachEnded (history_after d opening made items n) IsFirst }
{}

/// Valid prefixes: in the state after each number of the commits of a run every constraint holds, and each row fits
/// its columns.
pub fn prefixes_of_a_run_are_valid()
    ensures { (d : Dialect) (opening : Database) (made : ℕ) (items : List Item) (n k : ℕ) → Laws (language_of d) → Stands (language_of d) opening → d.is_valid (state opening (history_after d opening made items n).commits k) ≡ true }
{}

/// By an example what runs tell: under LOCKS, a and b write a table each and then want the other's. The first
/// waits. The second would close a circle, so it is refused and its transaction ends; then the first goes on, and
/// commits both rows.
pub fn a_deadlock_ends_one_of_two()
    ensures { told_by Locks (says 1 (codes "a") (codes "B;") ∷ says 2 (codes "b") (codes "B;") ∷ says 3 (codes "a") (codes "X;") ∷ says 4 (codes "b") (codes "Y;") ∷ says 5 (codes "a") (codes "Y;") ∷ says 6 (codes "b") (codes "X;") ∷ says 7 (codes "a") (codes "C;") ∷ []) 20
        ≡ codes "1 a: ok" ∷ codes "2 b: ok" ∷ codes "3 a: ok 1 row" ∷ codes "4 b: ok 1 row" ∷ codes "5 a: waits for b" ∷ codes "6 b: refused deadlock with a" ∷ codes "5 a: ok 1 row" ∷ codes "7 a: ok committed 1" ∷ [] }
{}

/// Under MVCC two sessions at SERIALIZABLE insert into one table, and neither waits. A definition waits for both,
/// and is told so once; it is made when the last of them has ended.
pub fn a_definition_waits_for_both()
    ensures { told_by Mvcc (says 1 (codes "a") (codes "B;") ∷ says 2 (codes "a") (codes "X;") ∷ says 3 (codes "b") (codes "B;") ∷ says 4 (codes "b") (codes "X;") ∷ says 5 (codes "c") (codes "D;") ∷ says 6 (codes "c") (codes "X;") ∷ says 7 (codes "a") (codes "C;") ∷ says 8 (codes "b") (codes "R;") ∷ []) 24
        ≡ codes "1 a: ok" ∷ codes "2 a: ok 1 row" ∷ codes "3 b: ok" ∷ codes "4 b: ok 1 row" ∷ codes "5 c: waits for a, b" ∷ codes "7 a: ok committed 1" ∷ codes "8 b: ok" ∷ codes "5 c: ok committed 2" ∷ codes "6 c: ok 1 row committed 3" ∷ [] }
{}

/// A definition first commits what its own session changed, and that is told before it waits. A session whose
/// transaction is open when the input ends is closed, and its transaction rolled back; so the definition is made
/// behind it.
pub fn a_definition_commits_its_own_changes_first()
    ensures { told_by Locks (says 1 (codes "a") (codes "B;") ∷ says 2 (codes "a") (codes "Y;") ∷ says 3 (codes "b") (codes "B;") ∷ says 4 (codes "b") (codes "X;") ∷ says 5 (codes "b") (codes "D;") ∷ says 6 (codes "b") (codes "?;") ∷ []) 24
        ≡ codes "1 a: ok" ∷ codes "2 a: ok 1 row" ∷ codes "3 b: ok" ∷ codes "4 b: ok 1 row" ∷ codes "5 b: first committed 1" ∷ codes "5 b: waits for a" ∷ codes "end a: rolled back" ∷ codes "5 b: ok committed 2" ∷ codes "6 b: refused syntax at 2" ∷ [] }
{}
