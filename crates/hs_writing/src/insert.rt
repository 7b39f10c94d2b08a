// INSERT.
ghost use Rattle.std.specs.Prelude.{◌≡◌};
ghost use Rattle.hs_meaning.specs.Finding.{Finds};
ghost use Rattle.hs_writing.specs.Answers.{Answers};
ghost use Rattle.hs_writing.specs.Statements as spec;

use crate::rows::note_misnamed;
use crate::source::source_for;
use crate::targets::{places_of, types_of};
use hs_ast::Insert as WrittenInsert;
use hs_base::{NoMemory, TableNo};
use hs_binding::Binder;
use hs_drops::answer;
use hs_elements::Columns;
use hs_outlines::note_no_table;
use hs_plan::{BindFault, Insert, InsertSource};
use hs_schema::{Catalog, Table};
use hs_typed::Faults;
use sqlite_items::Items;
use std::alloc::Global;

fn insert_by(
    table: TableNo,
    columns: Option<Items<u32>>,
    source: Option<InsertSource>,
) -> Option<Insert>
    ensures { result ≡ spec.insert_by table columns source }
{
    let Some(columns) = columns else {
        return None;
    };
    let Some(source) = source else {
        return None;
    };
    Some(Insert {
        table,
        columns,
        source,
    })
}

#[tactic(auto, unfolding(crate::specs::Statements::insert_into))]
fn insert_into<B: Binder>(
    binder: &B,
    i: &WrittenInsert,
    t: &Table,
    catalog: &Catalog,
    faults: &mut Faults,
    alloc: Global,
) -> Result<Option<Insert>, NoMemory>
    ensures { Finds (spec.insert_into catalog.now i.now t.now) faults.old faults.new result }
{
    let names = Columns::of_table(alloc, t.columns.as_slice())?;
    let list = i.columns.as_slice();
    note_misnamed(t, &names, list, faults, alloc)?;
    let types = types_of(t, &names, list, alloc)?;
    let source = source_for(binder, &types, &i.source, catalog, faults, alloc)?;
    let places = places_of(t, &names, list, alloc)?;
    Ok(insert_by(t.number, places, source))
}

fn insert_found<B: Binder>(
    binder: &B,
    i: &WrittenInsert,
    catalog: &Catalog,
    faults: &mut Faults,
    alloc: Global,
) -> Result<Option<Insert>, NoMemory>
    ensures { Finds (spec.insert_meaning catalog.now i.now) faults.old faults.new result }
{
    let Some(t) = catalog.table(i.table.name.as_str()) else {
        note_no_table(&i.table, faults, alloc)?;
        return Ok(None);
    };
    insert_into(binder, i, t, catalog, faults, alloc)
}

/// What INSERT means over a catalogue. `NoSuch` where the table or a column isn't there, `Exists` where a column stands twice,
/// `Count` where a row or the query has another number of values than there are columns, and `Types` where a value can't be
/// assigned to its column: at the value, or at the item of the query's leftmost core. Beside these come the faults of its
/// expressions and its query.
pub fn bind_insert<B: Binder>(
    binder: &B,
    catalog: &Catalog,
    i: &WrittenInsert,
    alloc: Global,
) -> Result<Insert, BindFault>
    ensures { Answers (spec.insert_meaning catalog.now i.now) result }
{
    let mut faults = Faults::new();
    let insert = insert_found(binder, i, catalog, &mut faults, alloc)?;
    answer(faults, insert)
}
