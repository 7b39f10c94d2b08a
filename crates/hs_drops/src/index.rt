// CREATE INDEX.
ghost use Rattle.std.specs.Prelude.{◌≡◌};
ghost use Rattle.hs_schema.specs.Catalogue.{table_named};
ghost use Rattle.hs_meaning.specs.Finding.{Finds};
ghost use Rattle.hs_drops.specs.Answers.{Answers, AnswersIndex};
ghost use Rattle.hs_drops.specs.Definitions as spec;

use crate::answers::answer;
use crate::drops::bind_no_table;
use crate::taken::is_owned;
use hs_ast::CreateIndex;
use hs_base::NoMemory;
use hs_elements::Columns;
use hs_outlines::{note_beyond, note_repeated, note_unknown, note_where_taken, places_in};
use hs_plan::{BindFault, Definition, Which};
use hs_schema::{Catalog, Table};
use hs_typed::Faults;
use hs_values::Name;
use sqlite_items::Items;
use std::alloc::Global;

fn index_by(table: Name, name: Name, columns: Option<Items<u32>>) -> Option<Definition>
    ensures { result ≡ spec.index_by table name columns }
{
    match columns {
        Some(columns) => Some(Definition::CreateIndex {
            table,
            name,
            columns,
        }),
        None => None,
    }
}

// CREATE INDEX, with all that is wrong in it.
fn index_created(
    catalog: &Catalog,
    c: &CreateIndex,
    t: &Table,
    faults: &mut Faults,
    alloc: Global,
) -> Result<Option<Definition>, NoMemory>
    ensures { Finds (spec.index_created catalog.now c.now t.now) faults.old faults.new result }
{
    let taken = is_owned(catalog, c.name.name.as_str());
    let names = Columns::of_table(alloc, t.columns.as_slice())?;
    note_where_taken(taken, &c.name, faults, alloc)?;
    note_unknown(&names, c.columns.as_slice(), faults, alloc)?;
    note_repeated(c.columns.as_slice(), faults, alloc)?;
    note_beyond(
        c.table.at,
        Which::Constraints,
        t.constraints.len(),
        1,
        faults,
    );
    let columns = places_in(&names, c.columns.as_slice(), alloc)?;
    let table = Name::from_text(alloc, c.table.name.as_str())?;
    let name = Name::from_text(alloc, c.name.name.as_str())?;
    Ok(index_by(table, name, columns))
}

fn bind_index_of(
    catalog: &Catalog,
    c: &CreateIndex,
    t: &Table,
    alloc: Global,
) -> Result<Definition, BindFault>
    ensures { Answers (spec.index_created catalog.now c.now t.now) result }
{
    let mut faults = Faults::new();
    let definition = index_created(catalog, c, t, &mut faults, alloc)?;
    answer(faults, definition)
}

/// What CREATE INDEX means over a catalogue. `NoSuch` where the table or a column isn't there, `Exists` where the name is taken by a
/// constraint or an index or a column stands twice, and `Limit` where the table would have more than 64 constraints and indexes.
pub fn bind_create_index(
    catalog: &Catalog,
    c: &CreateIndex,
    alloc: Global,
) -> Result<Definition, BindFault>
    ensures { AnswersIndex catalog.now c.now (table_named catalog.now c.now.table.name) result }
{
    match catalog.table(c.table.name.as_str()) {
        Some(t) => bind_index_of(catalog, c, t, alloc),
        None => bind_no_table(&c.table, alloc),
    }
}
