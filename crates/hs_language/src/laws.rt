//! Laws of definitions, each on a function that does nothing. Proofs of other crates cite them from `Whole.antt`,
//! `Sound.antt`, `Fitting.antt`, `Holding.antt` and `Accepted.antt` in `proofs/`.
ghost use Rattle.std.specs.Prelude.{◌≡◌, ◌↔◌, ℕ, ◌+◌, List, [], ◌∷◌, true, Ok, None};
ghost use Rattle.hs_turns.specs.Database.{Database, committed, defined};
ghost use Rattle.hs_language.specs.Definitions.{judged, still_referenced};
ghost use Rattle.hs_language.specs.Sound.{is_sound, is_whole};
ghost use Rattle.hs_language.specs.Sql.{are_numbered, is_valid};
ghost use Rattle.hs_language.specs.Validity.{all_fit, all_hold};
ghost use Rattle.hs_plan.specs.declared.change.Change.TheVariants as change;
ghost use Rattle.hs_plan.specs.declared.definition.Definition.{Definition};
ghost use Rattle.hs_language.specs.Proper.{IsProper};
ghost use Rattle.hs_schema.specs.Catalogue.{Things, after, IsNext};
ghost use Rattle.hs_schema.specs.Whole.{IsWhole};

/// The test of a catalogue's names and numbers says what every catalogue meets: numbers ascend, none is below that of its
/// table, and no two tables have one name or number, no two constraints or indexes one name.
pub fn the_test_of_names_and_numbers_is_exact()
    ensures { (things : Things) → (is_whole things ≡ true) ↔ IsWhole things }
{}

/// A definition that is proper, and drops nothing that a foreign key references, keeps a catalogue sound.
pub fn a_definition_keeps_a_catalogue_sound()
    ensures { (things : Things) (number : ℕ) (definition : Definition) → is_sound things ≡ true → IsNext things definition number → IsProper things definition → still_referenced things definition ≡ None → is_sound (after things definition number) ≡ true }
{}

/// Where each row fits its columns, it does so behind a proper definition: a new table has no rows, and a column that is added
/// gets its default.
pub fn a_definition_keeps_rows_fitting()
    ensures { (db : Database) (definition : Definition) → are_numbered db ≡ true → is_sound db.things ≡ true → is_sound (defined definition db).things ≡ true → IsProper db.things definition → all_fit db ≡ true → all_fit (defined definition db) ≡ true }
{}

/// Behind a definition that isn't refused every constraint holds, whatever held before.
pub fn every_constraint_holds_behind_a_definition()
    ensures { (db : Database) (definition : Definition) → judged db definition ≡ Ok definition → all_hold (defined definition db) ≡ true }
{}

/// Accepted: a proper definition that isn't refused leaves a valid database.
pub fn an_accepted_definition_leaves_a_valid_database()
    ensures { (db : Database) (definition : Definition) → is_valid db ≡ true → IsProper db.things definition → judged db definition ≡ Ok definition → is_valid (committed db (change.Define definition ∷ [])) ≡ true }
{}
