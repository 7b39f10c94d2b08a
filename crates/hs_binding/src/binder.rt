// What binds expressions and queries.
ghost use Rattle.hs_columns.specs.Bound.{FindsQuery};
ghost use Rattle.hs_meaning.specs.Layers.{means};
ghost use Rattle.hs_meaning.specs.Trees.{part_of, query_of};
ghost use Rattle.hs_meaning.specs.Around.{seen};
ghost use Rattle.hs_meaning.specs.Finding.{Finds};

use hs_ast::{Expression, Query};
use hs_base::NoMemory;
use hs_columns::BoundQuery;
use hs_meaning::Surroundings;
use hs_schema::Catalog;
use hs_typed::{Faults, Typed};
use std::alloc::Global;

/// What binds an expression or a query in its surroundings over a catalogue.
pub trait Binder {
    /// What an expression means, which is known where neither it nor a part of it breaks a rule. Its faults are noted. An
    /// `Err` is want of memory.
    fn expression(
        &self,
        e: &Expression,
        around: &Surroundings<'_>,
        catalog: &Catalog,
        faults: &mut Faults,
        alloc: Global,
    ) -> Result<Option<Typed>, NoMemory>
        ensures { Finds (means (part_of catalog.now e.now) (seen around.now)) faults.old faults.new result };

    /// What a query means: its output columns, and its plan where that is known. Its faults are noted. An `Err` is want of
    /// memory.
    fn query(
        &self,
        query: &Query,
        around: &Surroundings<'_>,
        catalog: &Catalog,
        faults: &mut Faults,
        alloc: Global,
    ) -> Result<BoundQuery, NoMemory>
        ensures { FindsQuery (query_of catalog.now query.now (seen around.now)) faults.old faults.new result };
}
