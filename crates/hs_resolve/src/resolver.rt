// What binds expressions and queries by walking their trees.
use crate::expressions::bind_expression;
use crate::queries::bind_query;
use hs_ast::{Expression, Query};
use hs_base::NoMemory;
use hs_binding::Binder;
use hs_columns::BoundQuery;
use hs_meaning::Surroundings;
use hs_schema::Catalog;
use hs_typed::{Faults, Typed};
use std::alloc::Global;

/// Binds expressions and queries by walking their trees.
#[derive(Clone, Copy)]
pub struct Resolver;

impl Binder for Resolver {
    fn expression(
        &self,
        e: &Expression,
        around: &Surroundings<'_>,
        catalog: &Catalog,
        faults: &mut Faults,
        alloc: Global,
    ) -> Result<Option<Typed>, NoMemory> {
        bind_expression(e, around, catalog, faults, alloc)
    }

    fn query(
        &self,
        query: &Query,
        around: &Surroundings<'_>,
        catalog: &Catalog,
        faults: &mut Faults,
        alloc: Global,
    ) -> Result<BoundQuery, NoMemory> {
        bind_query(query, around, catalog, faults, alloc)
    }
}
