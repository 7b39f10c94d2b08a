//! Laws of valid databases and of what footprints tell, each on a function that does nothing. With those of hs_language_laws
//! and hs_language they are the laws that SQL meets as the language of transactions. Proofs of other crates cite them from
//! `Wider.antt`, `Numbered.antt`, `Moved.antt` and `Behind.antt` in `proofs/`.
ghost use Rattle.std.specs.Prelude.{◌≡◌, ◌↔◌, ℕ, Bool, true, List, [], ◌∷◌, ◌++◌};
ghost use Rattle.hs_changes.specs.Changes.{count_all_inserted};
ghost use Rattle.hs_changes.specs.Settings.{Maps};
ghost use Rattle.hs_claims.specs.Footprint.{IsClear};
ghost use Rattle.hs_claims.specs.declared.footprint.Footprint.{Footprint};
ghost use Rattle.hs_turns.specs.Database.{Database, committed, has_room, view};
ghost use Rattle.hs_turns.specs.Each.{Across};
ghost use Rattle.hs_turns.specs.Language.{IsFine, Stands};
ghost use Rattle.hs_language.specs.Described.{described};
ghost use Rattle.hs_language.specs.Reading.{Reading};
ghost use Rattle.hs_language.specs.Sql.{sql};
ghost use Rattle.hs_plan.specs.declared.change.Change.{Change};
ghost use Rattle.hs_schema.specs.Catalogue.{Text, Things};
ghost use Rattle.hs_sentences.specs.Violations.{AllHold, Checks};
ghost use Rattle.hs_turns.specs.Dialect.{language_of};
ghost use Rattle.hs_validity.specs.Inside.{AreInside};
ghost use Rattle.hs_validity.specs.Meeting.{MeetsAll};

/// All constraints hold exactly where each has its sentence: no NULL in its columns, no two rows with one key, every row
/// passes the CHECK, and for each key that a row of the child has a row of the parent has it.
pub fn constraints_hold_where_each_is_met()
    ensures { (checks : Checks) (things : Things) (maps : Maps) → AllHold checks things maps ↔ MeetsAll checks things maps }
{}

/// No footprint tells of no change, and a further footprint tells no less.
pub fn a_further_footprint_tells_no_less()
    ensures none { (db : Database) → described db [] [] ≡ true }
    ensures wider { (db : Database) (changes : List Change) (f : Footprint) (feet : List Footprint) → described db changes feet ≡ true → described db changes (f ∷ feet) ≡ true }
{}

/// Where a transaction saw a valid database, its commit leaves one, whatever numbers its inserted rows get, and numbers its
/// rows by the changes that made them.
pub fn a_commit_leaves_a_valid_database()
    ensures { (r : Reading) (db : Database) (changes : List Change) (feet : List Footprint) → Stands (language_of (sql r)) db → IsFine (language_of (sql r)) db feet changes → has_room db changes ≡ true → Stands (language_of (sql r)) (committed db changes) }
{}

/// Two transactions that are clear of one another, each valid and told of by its footprints on one database, are so together:
/// where the other one is committed, this one's changes are still told of, and leave a valid database.
pub fn clear_transactions_are_valid_together()
    ensures { (r : Reading) (db : Database) (changes others : List Change) (feet other_feet : List Footprint) → Stands (language_of (sql r)) db → IsFine (language_of (sql r)) db feet changes → IsFine (language_of (sql r)) db other_feet others
        → has_room db others ≡ true → Across IsClear feet other_feet → IsFine (language_of (sql r)) (committed db others) feet changes }
{}

/// Where statements change what their footprints tell as written, the changes of one statement more are told of by its
/// footprint, and leave a valid database. One that is refused, and a query, changes nothing.
pub fn one_statement_more_leaves_a_valid_database()
    ensures { (r : Reading) → AreInside r → (read_only : Bool) (db : Database) (changes : List Change) (feet : List Footprint) (text : Text) → Stands (language_of (sql r)) db → IsFine (language_of (sql r)) db feet changes
        → IsFine (language_of (sql r)) db (((language_of (sql r)).outcome read_only (count_all_inserted changes) (view db changes) text).foot ∷ feet) (changes ++ ((language_of (sql r)).outcome read_only (count_all_inserted changes) (view db changes) text).changes) }
{}
