// INSERT.
ghost use Rattle.std.specs.Prelude.{◌≡◌, fold, map, List, Ok, Result, OnOk, IfOk};
ghost use Rattle.hs_values.specs.declared.fault.EvalFault.{EvalFault as Fault};
ghost use Rattle.hs_values.specs.declared.value.Value.{Value as SqlValue};
ghost use Rattle.hs_values.specs.Outcome.{Gives};
ghost use Rattle.hs_plan.specs.declared.change.Change.{Change as TheChange};
ghost use Rattle.hs_changes.specs.Settings.{Maps};
ghost use Rattle.hs_rel.specs.Selection.{unless};
ghost use Rattle.hs_actions.specs.Referencing.{Keys};
ghost use Rattle.hs_expression.specs.Outcomes.{all_or_least};
ghost use Rattle.hs_tentative.specs.NewRows as new_rows;
ghost use Rattle.hs_tentative.specs.Statements as statement;
ghost use Rattle.hs_dml.specs.Rows as spec;
ghost use Rattle.hs_dml.specs.Told.{around_of};

use crate::answers::Answers;
use crate::faults::lesser_of;
use crate::updating::columns_of;
use hs_base::{NoMemory, TableNo};
use hs_newrows::{Evaluates, inserted, taken_in};
use hs_plan::{Change, Changes, Column, Insert, InsertSource, NewValue, Query};
use hs_schema::Catalog;
use hs_values::{EvalFault, Row, Value};
use sqlite_items::Items;
use std::alloc::Global;

/// The inserted rows so far, and the least fault so far.
#[derive(Drop)]
pub(crate) struct Inserting {
    pub(crate) changes: Changes,
    pub(crate) fault: Option<EvalFault>,
}

impl Inserting {
    fn new(alloc: Global) -> Inserting
        ensures { result ≡ spec.none_inserted }
    {
        Inserting {
            changes: Changes::new(alloc),
            fault: None,
        }
    }

    // Takes in the next row, or the fault that it has.
    fn take(&mut self, table: TableNo, made: Result<Row, EvalFault>) -> Result<(), NoMemory>
        ensures { OnOk result ((means : Result (List SqlValue) Fault) → Gives made means → self.new ≡ spec.with_row table self.old means) }
    {
        match made {
            Ok(row) => self.changes.push(Change::Insert(table, row)),
            Err(EvalFault::NoMemory) => Err(NoMemory),
            Err(fault) => {
                self.fault = Some(lesser_of(self.fault, fault));
                Ok(())
            }
        }
    }
}

// The changes, or the least fault.
fn ended(made: Result<Inserting, NoMemory>) -> Result<Changes, EvalFault>
    ensures { (means : Result (List TheChange) Fault) → IfOk made (λ all. unless all.fault all.changes ≡ means) → Gives result means }
{
    match made {
        Ok(made) => match made.fault {
            Some(fault) => Err(fault),
            None => Ok(made.changes),
        },
        Err(NoMemory) => Err(EvalFault::NoMemory),
    }
}

// ---- rows of VALUES

fn insert_tuple<E: Evaluates>(
    inserting: &mut Inserting,
    alloc: Global,
    evaluator: &E,
    columns: &[Column],
    table: TableNo,
    places: &[u32],
    tuple: &[NewValue],
) -> Result<(), NoMemory>
    ensures { OnOk result (inserting.new ≡ spec.with_row table inserting.old (new_rows.inserted (E.evaluate evaluator.now) columns.now places.now tuple.now)) }
{
    inserting.take(table, inserted(alloc, evaluator, columns, places, tuple))
}

fn insert_tuples<E: Evaluates>(
    inserting: &mut Inserting,
    alloc: Global,
    evaluator: &E,
    columns: &[Column],
    table: TableNo,
    places: &[u32],
    tuples: &[Items<NewValue>],
) -> Result<(), NoMemory>
    ensures { OnOk result (inserting.new ≡ fold (λ so_far tuple. spec.with_row table so_far (new_rows.inserted (E.evaluate evaluator.now) columns.now places.now tuple)) inserting.old tuples.now) }
{
    for tuple in tuples {
        insert_tuple(
            inserting,
            alloc,
            evaluator,
            columns,
            table,
            places,
            tuple.as_slice(),
        )?;
    }
    Ok(())
}

fn of_tuples<E: Evaluates>(
    alloc: Global,
    evaluator: &E,
    columns: &[Column],
    table: TableNo,
    places: &[u32],
    tuples: &[Items<NewValue>],
) -> Result<Inserting, NoMemory>
    ensures { IfOk result (λ all. unless all.fault all.changes ≡ spec.inserts table (all_or_least (map (new_rows.inserted (E.evaluate evaluator.now) columns.now places.now) tuples.now))) }
{
    let mut inserting = Inserting::new(alloc);
    insert_tuples(
        &mut inserting,
        alloc,
        evaluator,
        columns,
        table,
        places,
        tuples,
    )?;
    Ok(inserting)
}

// ---- rows of a query

fn insert_row(
    inserting: &mut Inserting,
    alloc: Global,
    columns: &[Column],
    table: TableNo,
    places: &[u32],
    row: &[Value],
) -> Result<(), NoMemory>
    ensures { OnOk result (inserting.new ≡ spec.with_row table inserting.old (new_rows.taken_in columns.now places.now row.now)) }
{
    inserting.take(table, taken_in(alloc, columns, places, row))
}

fn insert_rows(
    inserting: &mut Inserting,
    alloc: Global,
    columns: &[Column],
    table: TableNo,
    places: &[u32],
    rows: &[Row],
) -> Result<(), NoMemory>
    ensures { OnOk result (inserting.new ≡ fold (λ so_far row. spec.with_row table so_far (new_rows.taken_in columns.now places.now row)) inserting.old rows.now) }
{
    for row in rows {
        insert_row(inserting, alloc, columns, table, places, row.as_slice())?;
    }
    Ok(())
}

fn of_rows(
    alloc: Global,
    columns: &[Column],
    table: TableNo,
    places: &[u32],
    rows: &[Row],
) -> Result<Inserting, NoMemory>
    ensures { IfOk result (λ all. unless all.fault all.changes ≡ spec.inserts table (all_or_least (map (new_rows.taken_in columns.now places.now) rows.now))) }
{
    let mut inserting = Inserting::new(alloc);
    insert_rows(&mut inserting, alloc, columns, table, places, rows)?;
    Ok(inserting)
}

fn of_query<Q: Answers>(
    alloc: Global,
    queries: &Q,
    columns: &[Column],
    table: TableNo,
    places: &[u32],
    query: &Query,
) -> Result<Changes, EvalFault>
    ensures { Gives result (spec.inserts table (spec.taken columns.now places.now (Q.answer queries.now query.now))) }
{
    match queries.rows(query) {
        Ok(rows) => ended(of_rows(alloc, columns, table, places, rows.as_slice())),
        Err(fault) => Err(fault),
    }
}

/// The changes that an INSERT makes: its rows in the order of VALUES or of the query's answer, columns that are left out
/// having their defaults. In a row the first fault of a value from the left counts, and of all rows the least. An `Err` is
/// that fault, or before it that of the query, or `NoMemory` for want of memory.
pub fn of_insert<E: Evaluates, Q: Answers>(
    alloc: Global,
    cat: &Catalog,
    evaluator: &E,
    queries: &Q,
    insert: &Insert,
) -> Result<Changes, EvalFault>
    ensures { (keys : Keys) (before : Maps) → Gives result (statement.of_insert (around_of cat.now (E.evaluate evaluator.now) (Q.answer queries.now) keys before) insert.now) }
{
    let columns = columns_of(cat, insert.table);
    let places = insert.columns.as_slice();
    match &insert.source {
        InsertSource::Tuples(tuples) => {
            let given = tuples.as_slice();
            ended(of_tuples(alloc, evaluator, columns, insert.table, places, given))
        }
        InsertSource::Query(query) => {
            of_query(alloc, queries, columns, insert.table, places, query)
        }
    }
}
