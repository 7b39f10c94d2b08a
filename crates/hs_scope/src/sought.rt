// What is found where a name is sought.
ghost use Rattle.std.specs.Prelude.{◌≡◌};
ghost use Rattle.hs_scope.specs.Sought.{both, if_passed};

use hs_plan::Kind;

/// What is found among the columns of one FROM.
#[derive(Clone, Copy)]
pub enum Sought {
    /// No column has the name.
    Missing,
    /// One column has it, at this place among all columns, from 0.
    One { at: u32, kind: Option<Kind> },
    /// Two or more have it.
    Several,
}

/// What a column's name means.
#[derive(Clone, Copy)]
pub enum Found {
    /// The column at this place, from 0, of the FROM that is so many FROMs outward. None of its kind where nothing is
    /// known of its values.
    Column {
        outward: u32,
        at: u32,
        kind: Option<Kind>,
    },
    /// No FROM has the name.
    Missing,
    /// The first FROM that has the name has it twice.
    Ambiguous,
}

impl Sought {
    /// What is found in two parts together.
    pub(crate) fn and(self, more: Sought) -> Sought
        ensures { result ≡ both self more }
    {
        match (self, more) {
            (Sought::Missing, more) => more,
            (found, Sought::Missing) => found,
            _ => Sought::Several,
        }
    }

    /// This where a test passes, and else nothing.
    pub(crate) fn if_passed(self, passed: bool) -> Sought
        ensures { result ≡ if_passed passed self }
    {
        if passed { self } else { Sought::Missing }
    }
}
