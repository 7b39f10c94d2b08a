// What is wrong with the files of a database.
use hs_values::Name;

/// What is wrong with the files of a database. With `Log` and `Invalid` it is so over a host that reads honestly,
/// and then, as with `Foreign` over each host, nothing of them was changed.
#[derive(Debug, PartialEq, Eq, Drop)]
pub enum Damage {
    /// They are those of another program: `.properties` stands beside them.
    Foreign,
    /// Group `g` of the log, counted from 1, is the first that is broken, isn't the text of a commit, or is that of
    /// a commit that can't be made on the database so far. It is 0 where the log was born and isn't open, or
    /// its epoch isn't 1.
    Log(u64),
    /// All commits of the log can be made again, and what they make violates this constraint, as the first.
    Invalid(Name),
}
