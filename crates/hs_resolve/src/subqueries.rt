// Queries in expressions. Where no query may stand, it isn't looked into.
ghost use Rattle.std.specs.Prelude.{if◌then◌else◌, []};
ghost use Rattle.hs_conclusions.specs.Bound.{bound};
ghost use Rattle.hs_meaning.specs.Expressions as spec;
ghost use Rattle.hs_meaning.specs.Parts.{refused};
ghost use Rattle.hs_meaning.specs.Trees.{query_of};
ghost use Rattle.hs_meaning.specs.Around.{seen};
ghost use Rattle.hs_meaning.specs.Finding.{Finds};

use crate::operands::{in_query, subquery};
use crate::queries::bind_query;
use hs_ast::Query;
use hs_base::NoMemory;
use hs_conclusions::exists;
use hs_meaning::{Surroundings, note_types};
use hs_schema::Catalog;
use hs_typed::{Faults, Typed};
use std::alloc::Global;

/// EXISTS at byte `at`. An `Err` is want of memory.
#[cycle(binding)]
pub(crate) fn bind_exists(
    query: &Query,
    at: u32,
    around: &Surroundings<'_>,
    catalog: &Catalog,
    faults: &mut Faults,
    alloc: Global,
) -> Result<Option<Typed>, NoMemory>
    ensures { Finds (if (seen around.now).queries then spec.exists_meaning at (query_of catalog.now query.now (seen around.now)) else refused at []) faults.old faults.new result }
{
    if !around.queries {
        note_types(at, faults);
        return Ok(None);
    }
    let query = bind_query(query, around, catalog, faults, alloc)?;
    exists(query.plan, alloc)
}

/// A query at byte `at` that stands for the value of its one row. An `Err` is want of memory.
#[cycle(binding)]
pub(crate) fn bind_subquery(
    query: &Query,
    at: u32,
    around: &Surroundings<'_>,
    catalog: &Catalog,
    faults: &mut Faults,
    alloc: Global,
) -> Result<Option<Typed>, NoMemory>
    ensures { Finds (if (seen around.now).queries then spec.subquery_meaning at (query_of catalog.now query.now (seen around.now)) else refused at []) faults.old faults.new result }
{
    if !around.queries {
        note_types(at, faults);
        return Ok(None);
    }
    let query = bind_query(query, around, catalog, faults, alloc)?;
    subquery(at, query, faults, alloc)
}

/// IN with a query, at byte `at`, whose operand is bound. An `Err` is want of memory.
#[cycle(binding)]
pub(crate) fn bind_in_query(
    query: &Query,
    at: u32,
    negated: bool,
    a: Option<Typed>,
    around: &Surroundings<'_>,
    catalog: &Catalog,
    faults: &mut Faults,
    alloc: Global,
) -> Result<Option<Typed>, NoMemory>
    ensures { Finds (if (seen around.now).queries then spec.in_query_meaning negated at (bound a) (query_of catalog.now query.now (seen around.now)) else refused at []) faults.old faults.new result }
{
    if !around.queries {
        note_types(at, faults);
        return Ok(None);
    }
    let query = bind_query(query, around, catalog, faults, alloc)?;
    in_query(at, negated, a, query, faults, alloc)
}
