// DELETE.
ghost use Rattle.std.specs.Prelude.{◌≡◌, fold, None, Ok, OnOk, IfOk};
ghost use Rattle.hs_values.specs.Outcome.{Gives};
ghost use Rattle.hs_acting.specs.Kept.{keys_in};
ghost use Rattle.hs_actions.specs.Referencing.{Keys};
ghost use Rattle.hs_schema.specs.Catalogue.{Things};
ghost use Rattle.hs_tentative.specs.Statements as statement;
ghost use Rattle.hs_dml.specs.Rows as spec;
ghost use Rattle.hs_dml.specs.Told.{Answer, around_of};

use crate::changes::with_those_of_actions;
use crate::chosen::numbers_for;
use crate::editing::{Editing, ended};
use hs_acting::References;
use hs_base::{NoMemory, RowName, RowNo, TableNo};
use hs_cascade::RowsBefore;
use hs_newrows::Evaluates;
use hs_plan::{Changes, Delete};
use hs_values::{EvalFault, Row};
use std::alloc::Global;
use std::collections::BTreeMap;

fn delete_all(editing: &mut Editing, table: TableNo, rows: &[RowNo]) -> Result<(), NoMemory>
    ensures { OnOk result (spec.edited_by editing.new ≡ fold (λ so_far row. spec.with_edit so_far (spec.name_of table row) (Ok None)) (spec.edited_by editing.old) rows.now) }
{
    for row in rows {
        editing.put(RowName { table, row: *row }, None)?;
    }
    Ok(())
}

fn deleted(alloc: Global, table: TableNo, rows: &[RowNo]) -> Result<Editing, NoMemory>
    ensures { IfOk result (λ made. spec.edited_by made ≡ fold (λ so_far row. spec.with_edit so_far (spec.name_of table row) (Ok None)) spec.none_edited rows.now) }
{
    let mut editing = Editing::new(alloc);
    delete_all(&mut editing, table, rows)?;
    Ok(editing)
}

// The rows that it deletes itself.
fn own_rows<E: Evaluates, B: RowsBefore>(
    alloc: Global,
    evaluator: &E,
    before: &B,
    delete: &Delete,
) -> Result<BTreeMap<RowName, Option<Row>>, EvalFault>
    ensures { (things : Things) (answer : Answer) (keys : Keys) → Gives (spec.entries_in result) (spec.edited_by_delete (around_of things (E.evaluate evaluator.now) answer keys (B.maps before.now)) delete.now) }
{
    match numbers_for(alloc, evaluator, before, &delete.filter, delete.table) {
        Ok(rows) => ended(deleted(alloc, delete.table, rows.as_slice())),
        Err(fault) => Err(fault),
    }
}

/// The changes that a DELETE makes, of the rows as they are before it: one for each row that it deletes itself or that an
/// action deletes or changes, by the numbers of tables and then of rows. `keys` are the foreign keys by the tables that they
/// reference. An `Err` is the least fault of WHERE over the rows, else the least of the values of actions; or `NoMemory`
/// for want of memory.
pub fn of_delete<E: Evaluates, B: RowsBefore>(
    alloc: Global,
    evaluator: &E,
    before: &B,
    keys: &References,
    delete: &Delete,
) -> Result<Changes, EvalFault>
    ensures { (things : Things) (answer : Answer) → Gives result (statement.of_delete (around_of things (E.evaluate evaluator.now) answer (keys_in keys.now) (B.maps before.now)) delete.now) }
{
    match own_rows(alloc, evaluator, before, delete) {
        Ok(edits) => with_those_of_actions(alloc, before, keys, edits),
        Err(fault) => Err(fault),
    }
}
