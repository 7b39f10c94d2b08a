//! Laws of SQL as the language of transactions.
ghost use Rattle.std.specs.Prelude.{◌≡◌, ℕ, Bool, true, []};
ghost use Rattle.hs_claims.specs.Footprint.{IsLawful};
ghost use Rattle.hs_turns.specs.Database.{Database};
ghost use Rattle.hs_turns.specs.Each.{Each};
ghost use Rattle.hs_turns.specs.Language.{Agree, IsWithin, references_of};
ghost use Rattle.hs_language.specs.Reading.{Reading, TellsTables};
ghost use Rattle.hs_language.specs.Sql.{is_valid, sql};
ghost use Rattle.hs_schema.specs.Catalogue.{Text};
ghost use Rattle.hs_turns.specs.Dialect.{language_of};

/// Frame: over two valid databases of one catalogue that have the same rows of each table that it touches, a statement
/// comes to the same: its answer or refusal, its changes and its footprint.
pub fn statements_depend_on_what_they_touch()
    ensures { (r : Reading) → TellsTables r → (read_only : Bool) (inserted : ℕ) (a b : Database) (text : Text) → is_valid a ≡ true → is_valid b ≡ true
        → Agree ((language_of (sql r)).outcome read_only inserted a text).foot a b
        → (language_of (sql r)).outcome read_only inserted b text ≡ (language_of (sql r)).outcome read_only inserted a text }
{}

/// The changes of a statement are within its footprint: of tables that it tells as written, and of committed rows that
/// it tells. The footprint is lawful, and in a read-only transaction a statement changes nothing.
pub fn footprints_tell_of_changes()
    ensures within { (r : Reading) → TellsTables r → (read_only : Bool) (inserted : ℕ) (db : Database) (text : Text) → is_valid db ≡ true → Each (IsWithin ((language_of (sql r)).outcome read_only inserted db text).foot) ((language_of (sql r)).outcome read_only inserted db text).changes }
    ensures lawful { (r : Reading) → TellsTables r → (read_only : Bool) (inserted : ℕ) (db : Database) (text : Text) → is_valid db ≡ true → IsLawful (references_of db.things) read_only ((language_of (sql r)).outcome read_only inserted db text).foot }
    ensures reader { (r : Reading) → TellsTables r → (inserted : ℕ) (db : Database) (text : Text) → is_valid db ≡ true → ((language_of (sql r)).outcome true inserted db text).changes ≡ [] }
{}
