//! Laws of SQL's reading, each on a function that does nothing.
ghost use Rattle.std.specs.Prelude.{◌≡◌, Bool, List, Ok};
ghost use Rattle.hs_ast.specs.declared.statement.Stmt.{Stmt};
ghost use Rattle.hs_entries.specs.Entry.{statement_of};
ghost use Rattle.hs_turns.specs.Histories.{Commit};
ghost use Rattle.hs_turns.specs.Language.{Laws};
ghost use Rattle.hs_language.specs.Reading.{Reading};
ghost use Rattle.hs_language.specs.Sql.{sql};
ghost use Rattle.hs_read.specs.Read.{IsReadAs};
ghost use Rattle.hs_reading.specs.Reading.{IsReading, reading_of};
ghost use Rattle.hs_schema.specs.Catalogue.{Text, Things};
ghost use Rattle.hs_reading.specs.BoundReading.{IsBound};
ghost use Rattle.hs_turns.specs.Dialect.{language_of};

/// There is a reading of SQL, whatever room the log has: entries ask for what their statements are, by the literal
/// grammar, and mean what is answered to these over a catalogue.
pub fn sql_has_a_reading()
    ensures { (room : List Commit → Commit → Bool) → IsReading (reading_of room) }
{}

/// Two readings of SQL are one: each entry asks for the same in both, and means the same over each catalogue.
pub fn readings_of_sql_agree()
    ensures request { (r other : Reading) → IsReading r → IsReading other → (entry : Text) → r.request entry ≡ other.request entry }
    ensures plan { (r other : Reading) → IsReading r → IsReading other → (things : Things) (entry : Text) (statement : Stmt) → IsReadAs (statement_of entry) (Ok statement) → r.plan things entry ≡ other.plan things entry }
{}

/// A reading of SQL is bound: its definitions are bound statements, and it tells the tables that statements read and
/// write.
pub fn readings_of_sql_are_bound()
    ensures { (r : Reading) → IsReading r → IsBound r }
{}

/// So SQL meets the laws of transactions, whatever room the log has.
pub fn sql_as_it_is_read_meets_the_laws()
    ensures { (room : List Commit → Commit → Bool) → Laws (language_of (sql (reading_of room))) }
{}
