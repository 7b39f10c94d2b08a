//! Laws of what SQL tells, each on a function that does nothing.
ghost use Rattle.hs_language.specs.Reading.{Reading};
ghost use Rattle.hs_language.specs.Sql.{sql};
ghost use Rattle.hs_plainsql.specs.Naming.{are_named};
ghost use Rattle.hs_plainsql.specs.Readings.{IsPlainReading};
ghost use Rattle.hs_plainwords.specs.Dialects.{IsPlainDialect};

/// SQL is plain over catalogues whose constraints have names without line feeds, where its reading of texts is plain:
/// the rows of answers, how many rows there are, why a value can't be given, which constraint is violated, and names
/// of savepoints. Its data statements define nothing, and its definitions lead from such catalogues to such ones. No row
/// can be taken for a reply, and each reply begins with `ok` or `refused`.
pub fn sql_is_plain()
    ensures { (r : Reading) → IsPlainReading r → IsPlainDialect are_named (sql r) }
{}
