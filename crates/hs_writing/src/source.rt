// The rows that an INSERT puts.
ghost use Rattle.std.specs.Prelude.{◌≡◌};
ghost use Rattle.hs_meaning.specs.Statements.{query_meaning};
ghost use Rattle.hs_meaning.specs.Finding.{Finds};
ghost use Rattle.hs_typed.specs.Faults.{noted};
ghost use Rattle.hs_writing.specs.Values as spec;

use crate::parts::query_alone;
use crate::values::tuple_for;
use hs_ast::{InsertSource as WrittenSource, NewValue as WrittenValue, Query};
use hs_base::NoMemory;
use hs_binding::Binder;
use hs_columns::{BoundQuery, note_uneven, with_part};
use hs_meaning::{PlacedColumn, note_types};
use hs_plan::{InsertSource, Kind, NewValue, is_assignable};
use hs_schema::Catalog;
use hs_scope::Scope;
use hs_typed::Faults;
use hs_values::SqlType;
use sqlite_items::Items;
use std::alloc::Global;

fn tuples_for<B: Binder>(
    binder: &B,
    columns: &[Option<SqlType>],
    tuples: &[Items<WrittenValue>],
    scope: &Scope,
    catalog: &Catalog,
    faults: &mut Faults,
    alloc: Global,
) -> Result<Option<Items<Items<NewValue>>>, NoMemory>
    ensures { Finds (spec.tuples_meaning catalog.now scope.now columns.now tuples.now) faults.old faults.new result }
{
    let mut made = Some(Items::new(alloc));
    for tuple in tuples {
        let values = tuple.as_slice();
        let part = tuple_for(binder, columns, values, scope, catalog, faults, alloc)?;
        made = with_part(made, part)?;
    }
    Ok(made)
}

fn note_misfit_of(column: &SqlType, at: u32, kind: Option<Kind>, faults: &mut Faults)
    ensures { faults.new ≡ noted faults.old (spec.misfit_by column.now at kind) }
{
    let Some(kind) = kind else {
        return;
    };
    if !is_assignable(column, kind) {
        note_types(at, faults);
    }
}

// Notes a column of a query that can't be assigned to the column of a type.
fn note_misfit(column: Option<SqlType>, given: &PlacedColumn, faults: &mut Faults)
    ensures { faults.new ≡ noted faults.old (spec.misfit column given.now) }
{
    if let Some(column) = column {
        note_misfit_of(&column, given.at, given.column.kind, faults);
    }
}

fn note_misfits(columns: &[Option<SqlType>], given: &[PlacedColumn], faults: &mut Faults)
    ensures { faults.new ≡ noted faults.old (spec.misfits columns.now given.now) }
{
    for (i, column) in columns.iter().enumerate() {
        if i >= given.len() {
            return;
        }
        note_misfit(*column, &given[i], faults);
    }
}

fn note_mismatches(columns: &[Option<SqlType>], given: &[PlacedColumn], faults: &mut Faults)
    ensures { faults.new ≡ noted faults.old (spec.mismatches columns.now given.now) }
{
    if columns.len() == given.len() {
        note_misfits(columns, given, faults);
    } else {
        note_uneven(faults);
    }
}

// The rows of a query for columns of these types.
#[tactic(auto, unfolding(crate::specs::Values::rows_of_query))]
fn rows_of_query<B: Binder>(
    binder: &B,
    columns: &[Option<SqlType>],
    query: &Query,
    catalog: &Catalog,
    faults: &mut Faults,
    alloc: Global,
) -> Result<Option<InsertSource>, NoMemory>
    ensures { Finds (spec.rows_of_query columns.now (query_meaning catalog.now query.now)) faults.old faults.new result }
{
    let bound = query_alone(binder, query, catalog, faults, alloc)?;
    let BoundQuery {
        columns: given,
        plan,
    } = bound;
    note_mismatches(columns, &given, faults);
    match plan {
        Some(plan) => Ok(Some(InsertSource::Query(plan))),
        None => Ok(None),
    }
}

fn from_tuples(tuples: Option<Items<Items<NewValue>>>) -> Option<InsertSource>
    ensures { result ≡ spec.from_tuples tuples }
{
    match tuples {
        Some(tuples) => Some(InsertSource::Tuples(tuples)),
        None => None,
    }
}

/// The rows of VALUES or of a query for columns of these types; None for a column that isn't there. Each value of VALUES is
/// bound with no rows around it. An `Err` is want of memory.
#[tactic(auto, unfolding(crate::specs::Values::source_meaning))]
pub fn source_for<B: Binder>(
    binder: &B,
    columns: &[Option<SqlType>],
    source: &WrittenSource,
    catalog: &Catalog,
    faults: &mut Faults,
    alloc: Global,
) -> Result<Option<InsertSource>, NoMemory>
    ensures { Finds (spec.source_meaning catalog.now columns.now source.now) faults.old faults.new result }
{
    match source {
        WrittenSource::Tuples(tuples) => {
            let none = Scope::new(alloc);
            let tuples = tuples.as_slice();
            let made = tuples_for(binder, columns, tuples, &none, catalog, faults, alloc)?;
            Ok(from_tuples(made))
        }
        WrittenSource::Query(query) => {
            rows_of_query(binder, columns, query, catalog, faults, alloc)
        }
    }
}
