// CREATE TABLE.
ghost use Rattle.std.specs.Prelude.{◌≡◌, List, IfOk};
ghost use Rattle.std.specs.Option.{option_map};
ghost use Rattle.hs_elements.specs.Faults.{Text};
ghost use Rattle.hs_outlines.specs.Columns.{columns_written};
ghost use Rattle.hs_tables.specs.Additions.{IsAdded};
ghost use Rattle.hs_tables.specs.Answers.{AnswersCreate, FindsNamed};
ghost use Rattle.hs_tables.specs.Definitions as spec;

use crate::additions::{Before, Grown, added};
use hs_ast::{CreateTable, Storage};
use hs_base::NoMemory;
use hs_binding::Binder;
use hs_drops::{answer, is_table};
use hs_outlines::{Elements, note_beyond, note_where_taken};
use hs_plan::{BindFault, Definition, Which};
use hs_schema::Catalog;
use hs_typed::Faults;
use hs_values::Name;
use std::alloc::Global;

fn table_of(storage: Storage, name: Name, made: Grown) -> Option<Definition>
    ensures { result ≡ option_map (Definition.CreateTable storage name made.columns) made.constraints }
{
    let Grown {
        columns,
        constraints,
    } = made;
    match constraints {
        Some(constraints) => Some(Definition::CreateTable {
            storage,
            name,
            columns,
            constraints,
        }),
        None => None,
    }
}

// The columns and the constraints of CREATE TABLE.
fn table_added<B: Binder>(
    binder: &B,
    catalog: &Catalog,
    c: &CreateTable,
    faults: &mut Faults,
    alloc: Global,
) -> Result<Grown, NoMemory>
    ensures columns { IfOk result (λ made. made.columns ≡ columns_written c.now.elements) }
    ensures constraints { IfOk result (λ made. (names : List Text) × IsAdded catalog.now c.now.name.at (spec.new_table c.now.name) c.now.elements names made.constraints faults.old faults.new) }
{
    let name = c.name.name.as_str();
    let all = c.elements.as_slice();
    let before = Before {
        name,
        columns: &[],
        constraints: &[],
    };
    let elements = Elements::All(all);
    added(binder, catalog, c.name.at, &before, elements, faults, alloc)
}

// CREATE TABLE, with all that is wrong in it.
fn table_created<B: Binder>(
    binder: &B,
    catalog: &Catalog,
    c: &CreateTable,
    faults: &mut Faults,
    alloc: Global,
) -> Result<Option<Definition>, NoMemory>
    ensures { FindsNamed catalog.now c.now.name.name c.now.elements (spec.table_created catalog.now c.now) faults.old faults.new result }
{
    let text = c.name.name.as_str();
    let taken = is_table(catalog, text);
    note_where_taken(taken, &c.name, faults, alloc)?;
    note_beyond(c.name.at, Which::Tables, catalog.count_tables(), 1, faults);
    let made = table_added(binder, catalog, c, faults, alloc)?;
    let name = Name::from_text(alloc, text)?;
    Ok(table_of(c.storage, name, made))
}

/// What CREATE TABLE means over a catalogue. `Exists` where the name of the table or of a constraint is taken, a column stands twice,
/// or there is a second primary key; `NoSuch` where a column isn't there, or a table or a key of it that a foreign key references;
/// `Ambiguous`, `Types` and `Count` as CHECKs, defaults and foreign keys have them; `Limit` where there would be more than 1,024
/// tables, 64 columns or 64 constraints. Of these it is the first by class and then by place.
pub fn bind_create_table<B: Binder>(
    binder: &B,
    catalog: &Catalog,
    c: &CreateTable,
    alloc: Global,
) -> Result<Definition, BindFault>
    ensures { AnswersCreate catalog.now c.now result }
{
    let mut faults = Faults::new();
    let definition = table_created(binder, catalog, c, &mut faults, alloc)?;
    answer(faults, definition)
}
