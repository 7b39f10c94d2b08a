// UPDATE.
ghost use Rattle.std.specs.Prelude.{◌≡◌, IfOk};
ghost use Rattle.hs_meaning.specs.Finding.{Finds};
ghost use Rattle.hs_writing.specs.Answers.{Answers};
ghost use Rattle.hs_writing.specs.Statements as spec;

use crate::parts::filter_over;
use crate::rows::{note_misnamed, rows_of};
use crate::values::value_for;
use hs_ast::{Assignment as WrittenAssignment, Identifier, Update as WrittenUpdate};
use hs_base::{NoMemory, TableNo};
use hs_binding::Binder;
use hs_columns::with_part;
use hs_drops::answer;
use hs_elements::Columns;
use hs_outlines::{note_no_table, place_in};
use hs_plan::{Assignment, BindFault, Expr, NewValue, Update};
use hs_schema::{Catalog, Table};
use hs_scope::Scope;
use hs_typed::Faults;
use sqlite_items::Items;
use std::alloc::Global;

fn columns_set(
    assignments: &[WrittenAssignment],
    alloc: Global,
) -> Result<Vec<Identifier>, NoMemory>
    ensures { IfOk result (λ columns. columns.items ≡ spec.columns_set assignments.now) }
{
    let mut columns = Vec::with_capacity(alloc, assignments.len())?;
    for assignment in assignments {
        columns.push(assignment.column.copy(alloc)?)?;
    }
    Ok(columns)
}

fn assignment_by(column: Option<u32>, value: Option<NewValue>) -> Option<Assignment>
    ensures { result ≡ spec.assignment_by column value }
{
    let Some(column) = column else {
        return None;
    };
    let Some(value) = value else {
        return None;
    };
    Some(Assignment { column, value })
}

#[tactic(auto, unfolding(crate::specs::Statements::assignment_meaning))]
fn assignment_for<B: Binder>(
    binder: &B,
    names: &Columns,
    a: &WrittenAssignment,
    scope: &Scope,
    catalog: &Catalog,
    faults: &mut Faults,
    alloc: Global,
) -> Result<Option<Assignment>, NoMemory>
    ensures { Finds (spec.assignment_meaning catalog.now scope.now names.now a.now) faults.old faults.new result }
{
    let name = a.column.name.as_str();
    let data_type = names.type_named(name);
    let value = value_for(binder, data_type, &a.value, scope, catalog, faults, alloc)?;
    Ok(assignment_by(place_in(names, name)?, value))
}

fn assignments_for<B: Binder>(
    binder: &B,
    names: &Columns,
    assignments: &[WrittenAssignment],
    scope: &Scope,
    catalog: &Catalog,
    faults: &mut Faults,
    alloc: Global,
) -> Result<Option<Items<Assignment>>, NoMemory>
    ensures { Finds (spec.assignments_meaning catalog.now scope.now names.now assignments.now) faults.old faults.new result }
{
    let mut made = Some(Items::new(alloc));
    for a in assignments {
        let part = assignment_for(binder, names, a, scope, catalog, faults, alloc)?;
        made = with_part(made, part)?;
    }
    Ok(made)
}

fn update_by(
    table: TableNo,
    assignments: Option<Items<Assignment>>,
    filter: Option<Option<Expr>>,
) -> Option<Update>
    ensures { result ≡ spec.update_by table assignments filter }
{
    let Some(assignments) = assignments else {
        return None;
    };
    let Some(filter) = filter else {
        return None;
    };
    Some(Update {
        table,
        assignments,
        filter,
    })
}

#[tactic(auto, unfolding(crate::specs::Statements::update_of))]
fn update_of<B: Binder>(
    binder: &B,
    u: &WrittenUpdate,
    t: &Table,
    catalog: &Catalog,
    faults: &mut Faults,
    alloc: Global,
) -> Result<Option<Update>, NoMemory>
    ensures { Finds (spec.update_of catalog.now u.now t.now) faults.old faults.new result }
{
    let names = Columns::of_table(alloc, t.columns.as_slice())?;
    let all = u.assignments.as_slice();
    let columns = columns_set(all, alloc)?;
    note_misnamed(t, &names, &columns, faults, alloc)?;
    let scope = rows_of(t, &u.table, &u.alias, alloc)?;
    let assignments = assignments_for(binder, &names, all, &scope, catalog, faults, alloc)?;
    let filter = filter_over(binder, &u.filter, &scope, catalog, faults, alloc)?;
    Ok(update_by(t.number, assignments, filter))
}

fn update_found<B: Binder>(
    binder: &B,
    u: &WrittenUpdate,
    catalog: &Catalog,
    faults: &mut Faults,
    alloc: Global,
) -> Result<Option<Update>, NoMemory>
    ensures { Finds (spec.update_meaning catalog.now u.now) faults.old faults.new result }
{
    let Some(t) = catalog.table(u.table.name.as_str()) else {
        note_no_table(&u.table, faults, alloc)?;
        return Ok(None);
    };
    update_of(binder, u, t, catalog, faults, alloc)
}

/// What UPDATE means over a catalogue. `NoSuch` where the table or a column isn't there, `Exists` where SET names a column
/// twice, and `Types` where a value can't be assigned to its column, at the value, or WHERE is no BOOLEAN, at the condition.
/// Beside these come the faults of its expressions, which are over the table's rows.
pub fn bind_update<B: Binder>(
    binder: &B,
    catalog: &Catalog,
    u: &WrittenUpdate,
    alloc: Global,
) -> Result<Update, BindFault>
    ensures { Answers (spec.update_meaning catalog.now u.now) result }
{
    let mut faults = Faults::new();
    let update = update_found(binder, u, catalog, &mut faults, alloc)?;
    answer(faults, update)
}
