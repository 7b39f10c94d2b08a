//! Laws of what is told of entries: it names nothing with a line feed, and can't be taken for the end of a line that tells
//! of a commit. Each is on a function that does nothing.
ghost use Rattle.std.specs.Prelude.{◌≡◌, Bool, List, true};
ghost use Rattle.hs_ast.specs.Lawful.{is_lawful, is_lawful_query};
ghost use Rattle.hs_ast.specs.declared.expression.Expression.{Expression};
ghost use Rattle.hs_ast.specs.declared.query.Query.{Query};
ghost use Rattle.hs_turns.specs.Histories.{Commit};
ghost use Rattle.hs_language.specs.Reading.{Reading};
ghost use Rattle.hs_language.specs.Sql.{sql};
ghost use Rattle.hs_meaning.specs.Layers.{means};
ghost use Rattle.hs_meaning.specs.Surroundings.{Surroundings};
ghost use Rattle.hs_meaning.specs.Trees.{part_of, query_of};
ghost use Rattle.hs_plainsql.specs.Naming.{are_named};
ghost use Rattle.hs_plainsql.specs.Readings.{IsPlainReading};
ghost use Rattle.hs_plainwords.specs.Dialects.{IsPlainDialect};
ghost use Rattle.hs_reading.specs.Binding.{BindsPlainly};
ghost use Rattle.hs_reading.specs.Causes.{are_single};
ghost use Rattle.hs_reading.specs.Reading.{reading_of};
ghost use Rattle.hs_requests.specs.Plans.{plan_of};
ghost use Rattle.hs_requests.specs.Requests.{request_of};
ghost use Rattle.hs_schema.specs.Catalogue.{Text, Things};

/// The faults of an expression and those of a query with lawful names, wherever they stand and over each catalogue,
/// name nothing with a line feed.
pub fn faults_name_no_line_feed()
    ensures expression { (things : Things) (e : Expression) (s : Surroundings) → is_lawful e ≡ true → are_single (means (part_of things e) s).faults ≡ true }
    ensures query { (things : Things) (q : Query) (s : Surroundings) → is_lawful_query q ≡ true → are_single (query_of things q s).faults ≡ true }
{}

/// What is answered to the statement of a text, over a catalogue whose constraints have names without line feeds, names
/// nothing with one: no fault, and no constraint that a definition makes.
pub fn binding_is_plain()
    ensures { BindsPlainly }
{}

/// A reading by which entries ask for and mean what their texts do is plain, where binding names nothing with a line
/// feed.
pub fn sql_is_read_plainly()
    ensures { (r : Reading) → BindsPlainly → ((text : Text) → r.request text ≡ request_of text) → ((things : Things) (text : Text) → r.plan things text ≡ plan_of things text) → IsPlainReading r }
{}

/// What is told of entries in SQL as it is read can't be taken for the end of a line that tells of a commit, over
/// catalogues whose constraints have names without line feeds; and definitions lead from such catalogues to such ones.
pub fn sql_as_it_is_read_is_plain()
    ensures { (room : List Commit → Commit → Bool) → IsPlainDialect are_named (sql (reading_of room)) }
{}
