// Whole queries.
ghost use Rattle.std.specs.Prelude.{◌≡◌, IfOk};
ghost use Rattle.hs_meaning.specs.Queries as spec;

use crate::bound::BoundBody;
use hs_ast::Limit;
use hs_base::NoMemory;
use hs_columns::{BoundQuery, outputs_of};
use hs_plan::{Query, QueryBody, SortKey};
use hs_scope::Outputs;
use sqlite_items::Items;
use std::alloc::Global;

/// The output columns of a body, as keys of ORDER BY name them. An `Err` is want of memory.
pub fn outputs_of_body(body: &BoundBody, alloc: Global) -> Result<Outputs, NoMemory>
    ensures { IfOk result (λ made. made ≡ spec.outputs body.now.columns.items) }
{
    Outputs::new(alloc, outputs_of(&body.columns, alloc)?)
}

fn query_by(
    body: Option<QueryBody>,
    order_by: Option<Items<SortKey>>,
    limit: Option<Limit>,
) -> Option<Query>
    ensures { result ≡ spec.query_by body order_by limit }
{
    match (body, order_by) {
        (Some(body), Some(order_by)) => Some(Query {
            body,
            order_by,
            limit,
        }),
        (Some(_), None) => None,
        (None, _) => None,
    }
}

/// A query from its bound body and its bound keys of ORDER BY.
pub fn query_with(body: BoundBody, keys: Option<Items<SortKey>>, limit: Option<Limit>) -> BoundQuery
    ensures columns { result.columns.items ≡ body.columns.items }
    ensures plan { result.plan ≡ spec.query_by body.plan keys limit }
{
    BoundQuery {
        columns: body.columns,
        plan: query_by(body.plan, keys, limit),
    }
}
