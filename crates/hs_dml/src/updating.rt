// UPDATE.
ghost use Rattle.std.specs.Prelude.{◌≡◌, fold, Some, Ok, OnOk, IfOk};
ghost use Rattle.hs_values.specs.Outcome.{Gives};
ghost use Rattle.hs_acting.specs.Kept.{keys_in};
ghost use Rattle.hs_actions.specs.Referencing.{Keys};
ghost use Rattle.hs_tentative.specs.NewRows as new_rows;
ghost use Rattle.hs_tentative.specs.Statements as statement;
ghost use Rattle.hs_dml.specs.Rows as spec;
ghost use Rattle.hs_dml.specs.Told.{Answer, around_of, columns_in};

use crate::changes::with_those_of_actions;
use crate::chosen::numbers_for;
use crate::editing::{Editing, ended};
use hs_acting::References;
use hs_base::{NoMemory, RowName, RowNo, TableNo};
use hs_cascade::RowsBefore;
use hs_newrows::{Evaluates, updated};
use hs_plan::{Changes, Column, Update};
use hs_schema::Catalog;
use hs_values::{EvalFault, Row};
use std::alloc::Global;
use std::collections::BTreeMap;

/// The columns of a table.
pub(crate) fn columns_of(cat: &Catalog, table: TableNo) -> &[Column]
    ensures { result.now ≡ columns_in cat.now table.0 }
{
    match cat.table_numbered(table) {
        Some(table) => table.columns.as_slice(),
        None => &[],
    }
}

// What a row becomes.
fn becomes<E: Evaluates>(
    alloc: Global,
    evaluator: &E,
    columns: &[Column],
    update: &Update,
    row: &Row,
) -> Result<Option<Row>, EvalFault>
    ensures { Gives result (spec.becomes (E.evaluate evaluator.now) columns.now update.now row.now) }
{
    Ok(Some(updated(
        alloc,
        evaluator,
        columns,
        update.assignments.as_slice(),
        row,
    )?))
}

fn edit<E: Evaluates, B: RowsBefore>(
    editing: &mut Editing,
    alloc: Global,
    evaluator: &E,
    before: &B,
    columns: &[Column],
    update: &Update,
    row: RowNo,
) -> Result<(), NoMemory>
    ensures { OnOk result (spec.edited_by editing.new ≡ spec.edited_at (spec.becomes (E.evaluate evaluator.now) columns.now update.now) update.now.table (B.maps before.now update.now.table.0) (spec.edited_by editing.old) row) }
{
    let name = RowName {
        table: update.table,
        row,
    };
    match before.row(name) {
        Some(old) => editing.take(name, becomes(alloc, evaluator, columns, update, old)),
        None => Ok(()),
    }
}

fn edit_all<E: Evaluates, B: RowsBefore>(
    editing: &mut Editing,
    alloc: Global,
    evaluator: &E,
    before: &B,
    columns: &[Column],
    update: &Update,
    rows: &[RowNo],
) -> Result<(), NoMemory>
    ensures { OnOk result (spec.edited_by editing.new ≡ fold (spec.edited_at (spec.becomes (E.evaluate evaluator.now) columns.now update.now) update.now.table (B.maps before.now update.now.table.0)) (spec.edited_by editing.old) rows.now) }
{
    for row in rows {
        edit(editing, alloc, evaluator, before, columns, update, *row)?;
    }
    Ok(())
}

fn edited<E: Evaluates, B: RowsBefore>(
    alloc: Global,
    evaluator: &E,
    before: &B,
    columns: &[Column],
    update: &Update,
    rows: &[RowNo],
) -> Result<Editing, NoMemory>
    ensures { IfOk result (λ made. spec.edited_by made ≡ fold (spec.edited_at (spec.becomes (E.evaluate evaluator.now) columns.now update.now) update.now.table (B.maps before.now update.now.table.0)) spec.none_edited rows.now) }
{
    let mut editing = Editing::new(alloc);
    edit_all(
        &mut editing,
        alloc,
        evaluator,
        before,
        columns,
        update,
        rows,
    )?;
    Ok(editing)
}

// The rows that it changes itself.
fn own_rows<E: Evaluates, B: RowsBefore>(
    alloc: Global,
    cat: &Catalog,
    evaluator: &E,
    before: &B,
    update: &Update,
) -> Result<BTreeMap<RowName, Option<Row>>, EvalFault>
    ensures { (answer : Answer) (keys : Keys) → Gives (spec.entries_in result) (spec.edited_by_update (around_of cat.now (E.evaluate evaluator.now) answer keys (B.maps before.now)) update.now) }
{
    let columns = columns_of(cat, update.table);
    match numbers_for(alloc, evaluator, before, &update.filter, update.table) {
        Ok(rows) => ended(edited(alloc, evaluator, before, columns, update, rows.as_slice())),
        Err(fault) => Err(fault),
    }
}

/// The changes that an UPDATE makes, of the rows as they are before it: one for each row that it changes itself or that an
/// action changes, by the numbers of tables and then of rows. `keys` are the foreign keys by the tables that they reference.
/// An `Err` is the first part's that has a fault, the least over its rows: WHERE, the values with their assignment, the
/// values of actions; or `NoMemory` for want of memory.
pub fn of_update<E: Evaluates, B: RowsBefore>(
    alloc: Global,
    cat: &Catalog,
    evaluator: &E,
    before: &B,
    keys: &References,
    update: &Update,
) -> Result<Changes, EvalFault>
    ensures { (answer : Answer) → Gives result (statement.of_update (around_of cat.now (E.evaluate evaluator.now) answer (keys_in keys.now) (B.maps before.now)) update.now) }
{
    match own_rows(alloc, cat, evaluator, before, update) {
        Ok(edits) => with_those_of_actions(alloc, before, keys, edits),
        Err(fault) => Err(fault),
    }
}
