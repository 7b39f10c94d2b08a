// Bound clauses of queries. Of each the plan is None where it breaks a rule.
ghost use Rattle.std.specs.Prelude.{◌≡◌};
ghost use Rattle.hs_clauses.specs.Bound.{keys_in};
ghost use Rattle.hs_meaning.specs.Around.{seen};

use hs_meaning::{PlacedColumn, Surroundings};
use hs_plan::{FromItem, QueryBody, Source};
use hs_scope::{FromTable, Scope};
use sqlite_items::Items;

/// A table of FROM under the name that it has there, and where its rows come from.
#[derive(Drop)]
pub struct BoundTable {
    pub table: FromTable,
    pub source: Option<Source>,
}

/// An element of FROM: its own tables from the left, and its plan.
#[derive(Drop)]
pub struct BoundElement {
    pub tables: Scope,
    pub item: Option<FromItem>,
}

/// A FROM: all its tables from the left, and the plans of its elements.
#[derive(Drop)]
pub struct BoundFrom {
    pub tables: Scope,
    pub items: Option<Items<FromItem>>,
}

/// What the keys of ORDER BY see.
#[derive(Drop)]
pub enum KeysOver {
    /// The rows of these tables, and what surrounds the query.
    Rows(Scope),
    /// What surrounds the query, as its values do.
    Values,
    /// What surrounds the query.
    Sides,
}

/// A body of a query: its output columns, its plan, whether a key of ORDER BY may be an expression, and what that sees.
#[derive(Drop)]
pub struct BoundBody {
    pub columns: Vec<PlacedColumn>,
    pub plan: Option<QueryBody>,
    pub plain: bool,
    pub over: KeysOver,
}

impl KeysOver {
    /// The surroundings of the keys of ORDER BY.
    pub fn surroundings<'a>(&'a self, around: &'a Surroundings<'a>) -> Surroundings<'a>
        ensures { seen result ≡ keys_in self.now (seen around.now) }
    {
        match self {
            KeysOver::Rows(tables) => Surroundings::over_rows(tables, around),
            KeysOver::Values => around.in_values(),
            KeysOver::Sides => *around,
        }
    }
}
