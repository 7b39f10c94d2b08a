//! Laws of databases that commits make again, each on a function that does nothing.
ghost use Rattle.std.specs.Prelude.{◌≡◌, List, true, None};
ghost use Rattle.hs_applicable.specs.Applicable.{may_make_all};
ghost use Rattle.hs_applicable.specs.SoundDatabase.{IsSoundDatabase};
ghost use Rattle.hs_turns.specs.Database.{Database, apply, IsNumbered};
ghost use Rattle.hs_instance.specs.Instance.{empty_database, violated_name};
ghost use Rattle.hs_language.specs.Sql.{is_valid};
ghost use Rattle.hs_plan.specs.declared.change.Change.{Change};

/// The database before any commit is sound, and violates no constraint.
pub fn the_empty_database_is_sound()
    ensures sound { IsSoundDatabase empty_database }
    ensures valid { is_valid empty_database ≡ true }
{}

/// Where commits that may be made lead from a sound database to one of which no constraint is named as violated, that is valid,
/// and its rows are numbered.
pub fn what_is_restored_is_valid()
    ensures valid { (db : Database) (changes : List Change) → IsSoundDatabase db → may_make_all db changes ≡ true → violated_name (apply db changes) ≡ None → is_valid (apply db changes) ≡ true }
    ensures numbered { (db : Database) (changes : List Change) → IsSoundDatabase db → may_make_all db changes ≡ true → IsNumbered (apply db changes) }
{}

/// A valid database names no violated constraint, and is sound where its rows are numbered.
pub fn a_valid_database_is_sound()
    ensures sound { (db : Database) → is_valid db ≡ true → IsNumbered db → IsSoundDatabase db }
    ensures unviolated { (db : Database) → is_valid db ≡ true → violated_name db ≡ None }
{}
