// Queries, their bodies and the keys of ORDER BY.
ghost use Rattle.std.specs.Prelude.{map};
ghost use Rattle.hs_clauses.specs.Bound.{FindsBody};
ghost use Rattle.hs_columns.specs.Bound.{FindsQuery};
ghost use Rattle.hs_meaning.specs.Queries as spec;
ghost use Rattle.hs_meaning.specs.Trees.{body_of, key_of, query_of};
ghost use Rattle.hs_meaning.specs.Around.{seen};
ghost use Rattle.hs_meaning.specs.Finding.{Finds};

use crate::bodies::{query_with, set_operation};
use crate::expressions::bind_expression;
use crate::over::{key_meaning, other_key};
use crate::select::bind_select;
use crate::values::bind_values;
use hs_ast::{Query, QueryBody, SortKey};
use hs_base::NoMemory;
use hs_clauses::{BoundBody, outputs_of_body, value_key};
use hs_columns::{BoundQuery, with_part};
use hs_meaning::Surroundings;
use hs_schema::Catalog;
use hs_scope::{KeyMeaning, Outputs};
use hs_typed::Faults;
use sqlite_items::{Boxed, Items};
use std::alloc::Global;

/// What a query means: its output columns, and its plan where that is known. Its faults are noted. An `Err` is want of
/// memory.
#[cycle(binding)]
pub(crate) fn bind_query(
    query: &Query,
    around: &Surroundings<'_>,
    catalog: &Catalog,
    faults: &mut Faults,
    alloc: Global,
) -> Result<BoundQuery, NoMemory>
    ensures { FindsQuery (query_of catalog.now query.now (seen around.now)) faults.old faults.new result }
{
    let body = bind_body(&query.body, around, catalog, faults, alloc)?;
    let outputs = outputs_of_body(body.get(), alloc)?;
    let inside = body.get().over.surroundings(&*around);
    let keys = bind_keys(
        query.order_by.as_slice(),
        &outputs,
        body.get().plain,
        &inside,
        catalog,
        faults,
        alloc,
    )?;
    Ok(query_with(body, keys, query.limit))
}

/// What a body of a query means. An `Err` is want of memory.
#[cycle(binding)]
fn bind_body(
    body: &QueryBody,
    around: &Surroundings<'_>,
    catalog: &Catalog,
    faults: &mut Faults,
    alloc: Global,
) -> Result<Boxed<BoundBody>, NoMemory>
    ensures { FindsBody (body_of catalog.now body.now (seen around.now)) (seen around.now) faults.old faults.new result }
{
    match body {
        QueryBody::Select(select) => bind_select(select.get(), around, catalog, faults, alloc),
        QueryBody::Values(rows) => bind_values(rows.as_slice(), around, catalog, faults, alloc),
        QueryBody::SetOperation(operator, left, right) => {
            let left = bind_body(left.get(), around, catalog, faults, alloc)?;
            let right = bind_body(right.get(), around, catalog, faults, alloc)?;
            set_operation(*operator, left, right, faults, alloc)
        }
    }
}

/// What keys of ORDER BY mean among these output columns, which is known where all are. `plain` says that a key may be an
/// expression. An `Err` is want of memory.
#[cycle(binding)]
fn bind_keys(
    keys: &[SortKey],
    outputs: &Outputs,
    plain: bool,
    around: &Surroundings<'_>,
    catalog: &Catalog,
    faults: &mut Faults,
    alloc: Global,
) -> Result<Option<Items<hs_plan::SortKey>>, NoMemory>
    ensures { Finds (spec.keys_over outputs.now plain (seen around.now) (map (key_of catalog.now) keys.now)) faults.old faults.new result }
{
    let mut bound = Some(Items::new(alloc));
    for key in keys {
        let one = bind_key(key, outputs, plain, around, catalog, faults, alloc)?;
        bound = with_part(bound, one)?;
    }
    Ok(bound)
}

/// What one key means. An `Err` is want of memory.
#[cycle(binding)]
fn bind_key(
    key: &SortKey,
    outputs: &Outputs,
    plain: bool,
    around: &Surroundings<'_>,
    catalog: &Catalog,
    faults: &mut Faults,
    alloc: Global,
) -> Result<Option<hs_plan::SortKey>, NoMemory>
    ensures { Finds (spec.key_over outputs.now plain (seen around.now) (key_of catalog.now key.now)) faults.old faults.new result }
{
    let meaning = key_meaning(key, outputs, plain, catalog);
    match meaning {
        KeyMeaning::Value => {
            let value = bind_expression(&key.value, around, catalog, faults, alloc)?;
            Ok(value_key(value, key.descending))
        }
        _ => other_key(key, meaning, around, catalog, faults, alloc),
    }
}
