// DELETE.
ghost use Rattle.std.specs.Prelude.{◌≡◌};
ghost use Rattle.hs_meaning.specs.Finding.{Finds};
ghost use Rattle.hs_writing.specs.Answers.{Answers};
ghost use Rattle.hs_writing.specs.Statements as spec;

use crate::parts::filter_over;
use crate::rows::rows_of;
use hs_ast::Delete as WrittenDelete;
use hs_base::{NoMemory, TableNo};
use hs_binding::Binder;
use hs_drops::answer;
use hs_outlines::note_no_table;
use hs_plan::{BindFault, Delete, Expr};
use hs_schema::{Catalog, Table};
use hs_typed::Faults;
use std::alloc::Global;

fn delete_by(table: TableNo, filter: Option<Option<Expr>>) -> Option<Delete>
    ensures { result ≡ spec.delete_by table filter }
{
    match filter {
        Some(filter) => Some(Delete { table, filter }),
        None => None,
    }
}

#[tactic(auto, unfolding(crate::specs::Statements::delete_from))]
fn delete_from<B: Binder>(
    binder: &B,
    d: &WrittenDelete,
    t: &Table,
    catalog: &Catalog,
    faults: &mut Faults,
    alloc: Global,
) -> Result<Option<Delete>, NoMemory>
    ensures { Finds (spec.delete_from catalog.now d.now t.now) faults.old faults.new result }
{
    let scope = rows_of(t, &d.table, &d.alias, alloc)?;
    let filter = filter_over(binder, &d.filter, &scope, catalog, faults, alloc)?;
    Ok(delete_by(t.number, filter))
}

fn delete_found<B: Binder>(
    binder: &B,
    d: &WrittenDelete,
    catalog: &Catalog,
    faults: &mut Faults,
    alloc: Global,
) -> Result<Option<Delete>, NoMemory>
    ensures { Finds (spec.delete_meaning catalog.now d.now) faults.old faults.new result }
{
    let Some(t) = catalog.table(d.table.name.as_str()) else {
        note_no_table(&d.table, faults, alloc)?;
        return Ok(None);
    };
    delete_from(binder, d, t, catalog, faults, alloc)
}

/// What DELETE means over a catalogue. `NoSuch` where the table isn't there, and `Types` where WHERE is no BOOLEAN, at the
/// condition. Beside these come the faults of WHERE, which is over the table's rows.
pub fn bind_delete<B: Binder>(
    binder: &B,
    catalog: &Catalog,
    d: &WrittenDelete,
    alloc: Global,
) -> Result<Delete, BindFault>
    ensures { Answers (spec.delete_meaning catalog.now d.now) result }
{
    let mut faults = Faults::new();
    let delete = delete_found(binder, d, catalog, &mut faults, alloc)?;
    answer(faults, delete)
}
