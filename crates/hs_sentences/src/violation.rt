// What is wrong with rows.
use hs_values::Name;

/// A constraint that rows violate, by its name, and how.
#[derive(Debug, Drop)]
pub enum Violation {
    /// A NULL in a column of a NOT NULL or in one of a primary key.
    Null(Name),
    /// A row for which a CHECK is FALSE, or has a fault.
    Check(Name),
    /// Two rows with one key of a UNIQUE or of a primary key.
    Unique(Name),
    /// A row that was put, whose foreign key names no row of its parent.
    Parent(Name),
    /// A row that wasn't put, whose foreign key names no row of its parent any more.
    Child(Name),
}
