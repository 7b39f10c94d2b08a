//! Laws of databases, each on a function that does nothing. Proofs of other crates cite them from `Applied.antt`,
//! `Numbered.antt` and `Tables.antt` in `proofs/`.
ghost use Rattle.std.specs.Prelude.{◌≡◌, ℕ, ◌+◌, ◌<◌, ◌≤◌, true, false, List, ◌++◌, ◌∷◌, [], length, map, Some, None, slice_get, Contains};
ghost use Rattle.std.specs.FinMap.{get};
ghost use Rattle.std.specs.List.{list_any};
ghost use Rattle.std.specs.Option.{option_map};
ghost use Rattle.hs_base.specs.declared.numbers.TableNo.{TableNo};
ghost use Rattle.hs_changes.specs.Changes.{count_all_inserted, own_row};
ghost use Rattle.hs_turns.specs.Database.{Database, after_commit, apply, committed, defined, has_room, is_definition, is_of_table, state, view, IsNumbered};
ghost use Rattle.hs_turns.specs.Definitions.{lengthened};
ghost use Rattle.hs_turns.specs.Numbers.{final_row, numbers_from, IsKnown, NamesKnown};
ghost use Rattle.hs_index.specs.Table.{Rows};
ghost use Rattle.hs_plan.specs.declared.change.Change.{Change};
ghost use Rattle.hs_plan.specs.declared.change.Change.TheVariants as change;
ghost use Rattle.hs_plan.specs.declared.definition.Definition.{Definition};
ghost use Rattle.hs_schema.specs.Catalogue.{after};
ghost use Rattle.hs_sessions.specs.declared.commit.Commit.{Commit};
ghost use Rattle.hs_values.specs.declared.value.Value.{Value};

/// Changes behind others are made on what those leave, and each adds one to the count.
pub fn changes_are_made_one_after_another()
    ensures behind { (db : Database) (xs ys : List Change) → apply db (xs ++ ys) ≡ apply (apply db xs) ys }
    ensures count { (db : Database) (changes : List Change) → (apply db changes).count ≡ db.count + length changes }
    ensures committed_count { (db : Database) (changes : List Change) → (committed db changes).count ≡ db.count + length changes }
{}

/// The state after no commit is the opening database, that after k + 1 is what commit k + 1 makes of that after k, and
/// later commits change no earlier state.
pub fn states_follow_one_another()
    ensures first { (opening : Database) (commits : List Commit) → state opening commits 0 ≡ opening }
    ensures next { (opening : Database) (commits : List Commit) (k : ℕ) (commit : Commit) → slice_get commits k ≡ Some commit → state opening commits (k + 1) ≡ after_commit (state opening commits k) commit }
    ensures stays { (opening : Database) (commits more : List Commit) (k : ℕ) → k ≤ length commits → state opening (commits ++ more) k ≡ state opening commits k }
{}

/// The rows that a commit inserts get numbers that ascend, each the number of its change, so each above the count
/// before and none above the count after. A row that was committed keeps its number, and the i-th that the transaction
/// inserted gets the i-th of these, wherever a change names it. So where no row had a number above the count, none has one
/// after the commit.
pub fn numbers_of_inserted_rows_are_new()
    ensures above { (count number : ℕ) (changes : List Change) → Contains (numbers_from (count + 1) changes) number → count < number }
    ensures most { (count number : ℕ) (changes : List Change) → Contains (numbers_from (count + 1) changes) number → number ≤ count + length changes }
    ensures its { (table : TableNo) (values : List Value) (rest front : List Change) (number : ℕ) → slice_get (numbers_from number (front ++ change.Insert table values ∷ rest)) (count_all_inserted front) ≡ Some (number + length front) }
    ensures rising { (number : ℕ) (changes : List Change) (i j x y : ℕ) → i < j → slice_get (numbers_from number changes) i ≡ Some x → slice_get (numbers_from number changes) j ≡ Some y → x < y }
    ensures own { (numbers : List ℕ) (i number : ℕ) → slice_get numbers i ≡ Some number → final_row numbers (own_row (i + 1)) ≡ number }
    ensures old { (numbers : List ℕ) (row : ℕ) → row < own_row 1 → final_row numbers row ≡ row }
    ensures unused { (db : Database) (changes : List Change) (table number : ℕ) → IsNumbered db → Contains (numbers_from (db.count + 1) changes) number → get (db.rows table) number ≡ None }
    ensures numbered { (db : Database) (changes : List Change) → IsNumbered db → NamesKnown db.count 0 changes → has_room db changes ≡ true → IsNumbered (committed db changes) }
{}

/// What a commit leaves of each table is what its transaction saw, but for the numbers of the rows that it inserted: each
/// row that the transaction knows has there what it had for it.
pub fn what_a_transaction_saw_is_committed()
    ensures { (db : Database) (changes : List Change) (table row : ℕ) → IsNumbered db → NamesKnown db.count 0 changes → IsKnown db.count (count_all_inserted changes) row
        → get ((committed db changes).rows table) (final_row (numbers_from (db.count + 1) changes) row) ≡ get ((view db changes).rows table) row }
{}

/// Changes of rows leave the catalogue, the model and the default level as they are, and every table that none of them is
/// about, at their commit too.
pub fn other_tables_stay()
    ensures things { (db : Database) (changes : List Change) → list_any is_definition changes ≡ false → (committed db changes).things ≡ db.things }
    ensures control { (db : Database) (changes : List Change) → list_any is_definition changes ≡ false → (committed db changes).control ≡ db.control }
    ensures level { (db : Database) (changes : List Change) → list_any is_definition changes ≡ false → (committed db changes).level ≡ db.level }
    ensures rows { (db : Database) (changes : List Change) (table : ℕ) → list_any is_definition changes ≡ false → list_any (is_of_table table) changes ≡ false → (committed db changes).rows table ≡ db.rows table }
    ensures seen { (db : Database) (changes : List Change) (table : ℕ) → list_any (is_of_table table) changes ≡ false → (view db changes).rows table ≡ db.rows table }
{}

/// A definition is a commit of one change. What it makes of the catalogue is `after`, with the number of its change. Each
/// row of a table that gets a column has one value more. Where no row had a number above the count, none has one.
pub fn a_definition_is_one_change()
    ensures commit { (db : Database) (definition : Definition) → committed db (change.Define definition ∷ []) ≡ defined definition db }
    ensures things { (db : Database) (definition : Definition) → (committed db (change.Define definition ∷ [])).things ≡ after db.things definition (db.count + 1) }
    ensures column { (value : Value) (rows : Rows) (row : ℕ) → get (lengthened value rows) row ≡ option_map (λ values. values ++ value ∷ []) (get rows row) }
    ensures numbered { (db : Database) (definition : Definition) → IsNumbered db → has_room db (change.Define definition ∷ []) ≡ true → IsNumbered (committed db (change.Define definition ∷ [])) }
{}
