//! Laws of runs of SQL, each on a function that does nothing.
ghost use Rattle.std.specs.Prelude.{◌≡◌, Bool, List};
ghost use Rattle.hs_claims.specs.declared.model.ControlKind.TheVariants.{Locks};
ghost use Rattle.hs_turns.specs.Histories.{Commit};
ghost use Rattle.hs_turns.specs.Language.{Stands};
ghost use Rattle.hs_language.specs.Reading.{Reading};
ghost use Rattle.hs_language.specs.Sql.{sql};
ghost use Rattle.hs_reading.specs.Reading.{reading_of};
ghost use Rattle.hs_reading.specs.Worlds.{new_database};
ghost use Rattle.hs_seams.specs.Stores.{IsWorld};
ghost use Rattle.hs_seams.specs.World.{World};
ghost use Rattle.hs_turns.specs.Dialect.{language_of};

/// A database with nothing in it is valid and numbered, and under LOCKS, whichever reading there is.
pub fn a_new_database_stands()
    ensures stands { (r : Reading) → Stands (language_of (sql r)) new_database }
    ensures locks { new_database.control ≡ Locks }
{}

/// Each run of SQL as it is read, over a valid and numbered database, is such a world as a store is asked in, whatever
/// room the log has and whatever model of transactions the database has.
pub fn sql_runs_are_worlds()
    ensures { (room : List Commit → Commit → Bool) (w : World) → w.run.dialect ≡ sql (reading_of room) → Stands (language_of w.run.dialect) w.run.opening → IsWorld w }
{}
