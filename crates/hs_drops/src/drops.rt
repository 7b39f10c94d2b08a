// DROP TABLE, DROP INDEX, and ALTER TABLE with DROP CONSTRAINT.
ghost use Rattle.std.specs.Prelude.{◌≡◌, IfOk};
ghost use Rattle.hs_schema.specs.Catalogue.{table_named};
ghost use Rattle.hs_meaning.specs.Finding.{Finds};
ghost use Rattle.hs_drops.specs.Answers.{Answers, AnswersDropConstraint};
ghost use Rattle.hs_drops.specs.Definitions as spec;

use crate::answers::answer;
use crate::named::{has_constraint, has_index};
use crate::taken::is_table;
use hs_ast::Identifier;
use hs_base::NoMemory;
use hs_outlines::{note_no_column, note_no_table};
use hs_plan::{BindFault, Definition};
use hs_schema::{Catalog, Table};
use hs_typed::Faults;
use hs_values::Name;
use std::alloc::Global;

fn table_dropped(
    catalog: &Catalog,
    name: &Identifier,
    faults: &mut Faults,
    alloc: Global,
) -> Result<Option<Definition>, NoMemory>
    ensures { Finds (spec.table_dropped catalog.now name.now) faults.old faults.new result }
{
    if is_table(catalog, name.name.as_str()) {
        let name = Name::from_text(alloc, name.name.as_str())?;
        return Ok(Some(Definition::DropTable(name)));
    }
    note_no_table(name, faults, alloc)?;
    Ok(None)
}

/// What DROP TABLE means over a catalogue. `NoSuch` where the table isn't there.
pub fn bind_drop_table(
    catalog: &Catalog,
    name: &Identifier,
    alloc: Global,
) -> Result<Definition, BindFault>
    ensures { Answers (spec.table_dropped catalog.now name.now) result }
{
    let mut faults = Faults::new();
    let definition = table_dropped(catalog, name, &mut faults, alloc)?;
    answer(faults, definition)
}

fn is_index_of(catalog: &Catalog, name: &str) -> bool
    ensures { result ≡ spec.is_index_of catalog.now name.now }
{
    let Some(place) = catalog.constraint(name) else {
        return false;
    };
    match catalog.table_numbered(place.table) {
        Some(t) => has_index(t.constraints.as_slice(), name),
        None => false,
    }
}

fn index_dropped(
    catalog: &Catalog,
    name: &Identifier,
    faults: &mut Faults,
    alloc: Global,
) -> Result<Option<Definition>, NoMemory>
    ensures { Finds (spec.index_dropped catalog.now name.now) faults.old faults.new result }
{
    if is_index_of(catalog, name.name.as_str()) {
        let name = Name::from_text(alloc, name.name.as_str())?;
        return Ok(Some(Definition::DropIndex(name)));
    }
    note_no_column(name, faults, alloc)?;
    Ok(None)
}

/// What DROP INDEX means over a catalogue. `NoSuch` where no index has the name, a constraint being none.
pub fn bind_drop_index(
    catalog: &Catalog,
    name: &Identifier,
    alloc: Global,
) -> Result<Definition, BindFault>
    ensures { Answers (spec.index_dropped catalog.now name.now) result }
{
    let mut faults = Faults::new();
    let definition = index_dropped(catalog, name, &mut faults, alloc)?;
    answer(faults, definition)
}

fn drop_of(table: &Identifier, name: &Identifier, alloc: Global) -> Result<Definition, NoMemory>
    ensures { IfOk result (λ made. made ≡ Definition.DropConstraint table.now.name name.now.name) }
{
    Ok(Definition::DropConstraint {
        table: Name::from_text(alloc, table.name.as_str())?,
        name: Name::from_text(alloc, name.name.as_str())?,
    })
}

fn constraint_dropped(
    t: &Table,
    table: &Identifier,
    name: &Identifier,
    faults: &mut Faults,
    alloc: Global,
) -> Result<Option<Definition>, NoMemory>
    ensures { Finds (spec.constraint_dropped t.now table.now name.now) faults.old faults.new result }
{
    if has_constraint(t.constraints.as_slice(), name.name.as_str()) {
        return Ok(Some(drop_of(table, name, alloc)?));
    }
    note_no_column(name, faults, alloc)?;
    Ok(None)
}

fn bind_dropped_constraint(
    t: &Table,
    table: &Identifier,
    name: &Identifier,
    alloc: Global,
) -> Result<Definition, BindFault>
    ensures { Answers (spec.constraint_dropped t.now table.now name.now) result }
{
    let mut faults = Faults::new();
    let definition = constraint_dropped(t, table, name, &mut faults, alloc)?;
    answer(faults, definition)
}

/// That there is no table of a name, or want of memory.
pub fn bind_no_table(name: &Identifier, alloc: Global) -> Result<Definition, BindFault>
    ensures { Answers (spec.no_table name.now) result }
{
    let mut faults = Faults::new();
    note_no_table(name, &mut faults, alloc)?;
    answer(faults, None)
}

/// What ALTER TABLE with DROP CONSTRAINT means over a catalogue. `NoSuch` where the table isn't there, or it has no constraint
/// of the name, an index being none.
pub fn bind_drop_constraint(
    catalog: &Catalog,
    table: &Identifier,
    name: &Identifier,
    alloc: Global,
) -> Result<Definition, BindFault>
    ensures { AnswersDropConstraint table.now name.now (table_named catalog.now table.now.name) result }
{
    match catalog.table(table.name.as_str()) {
        Some(t) => bind_dropped_constraint(t, table, name, alloc),
        None => bind_no_table(table, alloc),
    }
}
