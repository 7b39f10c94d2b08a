// The surroundings of a part: what it sees, and what may stand there.
ghost use Rattle.std.specs.Prelude.{◌≡◌, nat_eq};
ghost use Rattle.std.specs.List.{list_any};
ghost use Rattle.std.specs.Option.{option_map};
ghost use Rattle.hs_meaning.specs.Surroundings as spec;
ghost use Rattle.hs_meaning.specs.Around.{groups_of, seen};

use hs_scope::{Scope, Scopes};

/// The columns that may stand in a part, for each FROM around it from the inside outward.
#[derive(Clone, Copy)]
pub enum Groups<'a> {
    Outermost,
    /// The places of those of the own FROM, or None where all may, and those of the FROMs around.
    Inside(Option<&'a [u32]>, &'a Groups<'a>),
}

/// What surrounds a part of a statement. It borrows the FROMs, so that none is copied.
#[derive(Clone, Copy)]
pub struct Surroundings<'a> {
    /// The FROMs that it sees.
    pub scopes: Scopes<'a>,
    /// The columns of them that may stand there.
    pub groups: Groups<'a>,
    /// Whether aggregates of the innermost SELECT may.
    pub aggregates: bool,
    /// Whether queries may.
    pub queries: bool,
}

fn has_place(columns: &[u32], at: u32) -> bool
    ensures { result ≡ list_any (λ c. nat_eq at c) columns.now }
{
    columns.iter().any(|c| at == *c)
}

fn admits(columns: Option<&[u32]>, at: u32) -> bool
    ensures { result ≡ spec.admits (option_map (λ c. c.now) columns.entry) at }
{
    match columns {
        None => true,
        Some(columns) => has_place(columns, at),
    }
}

impl Groups<'_> {
    /// Whether the column at a place of the FROM so many FROMs outward may stand there.
    pub fn may_stand(&self, outward: u32, at: u32) -> bool
        ensures { result ≡ spec.may_stand (groups_of self.now) outward at }
    {
        match self {
            Groups::Outermost => true,
            Groups::Inside(columns, around) => {
                if outward > 0 {
                    return around.may_stand(outward - 1, at);
                }
                admits(*columns, at)
            }
        }
    }
}

impl<'a> Surroundings<'a> {
    /// The top of a statement, where no FROM is.
    pub fn outermost() -> Surroundings<'a>
        ensures { seen result ≡ spec.outermost }
    {
        Surroundings {
            scopes: Scopes::Outermost,
            groups: Groups::Outermost,
            aggregates: false,
            queries: true,
        }
    }

    /// Those of ON, WHERE, GROUP BY and keys of ORDER BY, over the rows of these tables.
    pub fn over_rows(scope: &'a Scope, around: &'a Surroundings<'a>) -> Surroundings<'a>
        ensures { seen result ≡ spec.over_rows scope.now (seen around.now) }
    {
        Surroundings {
            scopes: Scopes::Inside(scope, &around.scopes),
            groups: Groups::Inside(None, &around.groups),
            aggregates: false,
            queries: around.queries,
        }
    }

    /// Those of items and HAVING: these columns may stand there, by their places, or all where that is None.
    pub fn over_groups(
        scope: &'a Scope,
        columns: Option<&'a [u32]>,
        around: &'a Surroundings<'a>,
    ) -> Surroundings<'a>
        ensures { seen result ≡ spec.over_groups scope.now (option_map (λ c. c.now) columns.entry) (seen around.now) }
    {
        Surroundings {
            scopes: Scopes::Inside(scope, &around.scopes),
            groups: Groups::Inside(columns, &around.groups),
            aggregates: true,
            queries: around.queries,
        }
    }

    /// Those of the operand of an aggregate, where all columns of its FROM may stand and no aggregate may.
    pub fn in_aggregate(&self) -> Surroundings<'a>
        ensures { seen result ≡ spec.in_aggregate (seen self.now) }
    {
        let groups = match self.groups {
            Groups::Outermost => Groups::Outermost,
            Groups::Inside(_, around) => Groups::Inside(None, around),
        };
        Surroundings {
            scopes: self.scopes,
            groups,
            aggregates: false,
            queries: self.queries,
        }
    }

    /// Those of a value of VALUES, where no aggregate may stand.
    pub fn in_values(&self) -> Surroundings<'a>
        ensures { seen result ≡ spec.in_values (seen self.now) }
    {
        Surroundings {
            scopes: self.scopes,
            groups: self.groups,
            aggregates: false,
            queries: self.queries,
        }
    }

    /// Those of a CHECK, where neither aggregates nor queries may stand.
    pub fn in_check(&self) -> Surroundings<'a>
        ensures { seen result ≡ spec.in_check (seen self.now) }
    {
        Surroundings {
            scopes: self.scopes,
            groups: self.groups,
            aggregates: false,
            queries: false,
        }
    }
}
