// SELECT and VALUES by themselves.
ghost use Rattle.hs_meaning.specs.Statements.{query_meaning};
ghost use Rattle.hs_writing.specs.Answers.{AnswersQuery};

use crate::parts::query_alone;
use hs_binding::Binder;
use hs_drops::answer;
use hs_plan::{BindFault, Query};
use hs_schema::Catalog;
use hs_typed::Faults;
use std::alloc::Global;

/// What a query by itself means over a catalogue, or its least fault.
pub fn bind_query<B: Binder>(
    binder: &B,
    catalog: &Catalog,
    query: &hs_ast::Query,
    alloc: Global,
) -> Result<Query, BindFault>
    ensures { AnswersQuery (query_meaning catalog.now query.now) result }
{
    let mut faults = Faults::new();
    let bound = query_alone(binder, query, catalog, &mut faults, alloc)?;
    answer(faults, bound.plan)
}
