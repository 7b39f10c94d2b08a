// The FROMs of a query and of those around it.
ghost use Rattle.std.specs.Prelude.{◌≡◌, IfOk};
ghost use Rattle.hs_scope.specs.Names.{outward, found_in};
ghost use Rattle.hs_scope.specs.Scopes.{scopes_of};

use crate::scope::Scope;
use crate::sought::{Found, Sought};
use hs_ast::ColumnName;
use hs_base::NoMemory;

/// What a query sees: its own FROM, and what the queries around it see.
#[derive(Clone, Copy)]
pub enum Scopes<'a> {
    /// Nothing: there is no FROM.
    Outermost,
    Inside(&'a Scope, &'a Scopes<'a>),
}

impl Scopes<'_> {
    /// What a column's name means. An `Err` is want of memory: the FROM is more than 2^32 FROMs outward.
    pub fn find(&self, name: &ColumnName) -> Result<Found, NoMemory>
        ensures { IfOk result (λ found. found ≡ found_in (scopes_of self.now) name.now) }
    {
        match self {
            Scopes::Outermost => Ok(Found::Missing),
            Scopes::Inside(scope, around) => match scope.find_name(name) {
                Sought::Missing => farther(around.find(name)?),
                Sought::One { at, kind } => Ok(Found::Column {
                    outward: 0,
                    at,
                    kind,
                }),
                Sought::Several => Ok(Found::Ambiguous),
            },
        }
    }
}

fn farther(found: Found) -> Result<Found, NoMemory>
    ensures { IfOk result (λ far. far ≡ outward found) }
{
    match found {
        Found::Column { outward, at, kind } => match outward.checked_add(1) {
            Some(outward) => Ok(Found::Column { outward, at, kind }),
            None => Err(NoMemory),
        },
        Found::Missing => Ok(Found::Missing),
        Found::Ambiguous => Ok(Found::Ambiguous),
    }
}
