//! Laws of changes that may be made, each on a function that does nothing. Proofs of other crates cite them from `Tested.antt` and
//! `Keeping.antt` in `proofs/`.
ghost use Rattle.std.specs.Prelude.{◌≡◌, ◌↔◌, List, [], ◌++◌, ◌&&◌, true, None};
ghost use Rattle.hs_applicable.specs.Applicable.{may_make_all, may_make_each};
ghost use Rattle.hs_applicable.specs.Bound.{is_bound, is_proper};
ghost use Rattle.hs_applicable.specs.SoundDatabase.{IsSoundDatabase};
ghost use Rattle.hs_turns.specs.Database.{Database, apply};
ghost use Rattle.hs_language.specs.Sql.{is_valid};
ghost use Rattle.hs_language.specs.Validity.{lets_pass};
ghost use Rattle.hs_plan.specs.declared.change.Change.{Change};
ghost use Rattle.hs_plan.specs.declared.definition.Definition.{Definition};
ghost use Rattle.hs_language.specs.Proper.{IsProper};
ghost use Rattle.hs_schema.specs.Catalogue.{IsBound, Things};
ghost use Rattle.hs_sentences.specs.Violations.{first_violated};

/// The tests of definitions say what is asked of one that is bound, and of one that is proper.
pub fn the_tests_of_definitions_are_exact()
    ensures bound { (things : Things) (definition : Definition) → (is_bound things definition ≡ true) ↔ IsBound things definition }
    ensures proper { (things : Things) (definition : Definition) → (is_proper things definition ≡ true) ↔ IsProper things definition }
{}

/// Changes that may be made leave a sound database so: things and rows are numbered by the changes that made them, the catalogue
/// is sound, and each row fits its columns.
pub fn a_database_stays_sound()
    ensures { (db : Database) (changes : List Change) → IsSoundDatabase db → may_make_all db changes ≡ true → IsSoundDatabase (apply db changes) }
{}

/// Changes may be made one behind another exactly where the first may be, and the others behind them.
pub fn changes_may_be_made_one_behind_another()
    ensures { (db : Database) (xs ys : List Change) → may_make_each db (xs ++ ys) ≡ (may_make_each db xs && may_make_each (apply db xs) ys) }
{}

/// A sound database whose rows violate no constraint is valid.
pub fn a_sound_database_without_violations_is_valid()
    ensures { (db : Database) → IsSoundDatabase db → first_violated lets_pass db.things (λ table. []) db.rows ≡ None → is_valid db ≡ true }
{}
