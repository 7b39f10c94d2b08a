// The columns that a statement writes.
ghost use Rattle.std.specs.Prelude.{◌≡◌, IfOk};
ghost use Rattle.hs_writing.specs.Targets as spec;

use hs_ast::Identifier;
use hs_base::NoMemory;
use hs_elements::Columns;
use hs_outlines::places_in;
use hs_plan::Column;
use hs_schema::Table;
use hs_values::SqlType;
use sqlite_items::Items;
use std::alloc::Global;

fn all_types(columns: &[Column], alloc: Global) -> Result<Vec<Option<SqlType>>, NoMemory>
    ensures { IfOk result (λ types. types.items ≡ spec.all_types columns.now) }
{
    let mut types = Vec::with_capacity(alloc, columns.len())?;
    for column in columns {
        types.push(Some(column.data_type))?;
    }
    Ok(types)
}

fn types_named(
    names: &Columns,
    list: &[Identifier],
    alloc: Global,
) -> Result<Vec<Option<SqlType>>, NoMemory>
    ensures { IfOk result (λ types. types.items ≡ spec.types_named names.now list.now) }
{
    let mut types = Vec::with_capacity(alloc, list.len())?;
    for name in list {
        types.push(names.type_named(name.name.as_str()))?;
    }
    Ok(types)
}

/// The types of the columns that an INSERT writes: those of a list, or of all columns of the table. None for one that isn't
/// there. `names` are the table's columns by their names. An `Err` is want of memory.
pub fn types_of(
    t: &Table,
    names: &Columns,
    list: &[Identifier],
    alloc: Global,
) -> Result<Vec<Option<SqlType>>, NoMemory>
    requires { names.now ≡ spec.names_of t.now }
    ensures { IfOk result (λ types. types.items ≡ spec.types_of t.now list.now) }
{
    match list {
        [] => all_types(t.columns.as_slice(), alloc),
        [_, ..] => types_named(names, list, alloc),
    }
}

// A place has 32 bits.
fn place_of(at: usize) -> Result<u32, NoMemory>
    ensures { IfOk result (λ place. place ≡ at) }
{
    match u32::try_from(at) {
        Ok(place) => Ok(place),
        Err(_) => Err(NoMemory),
    }
}

fn all_places(columns: &[Column], alloc: Global) -> Result<Items<u32>, NoMemory>
    ensures { IfOk result (λ places. places ≡ spec.all_places columns.now) }
{
    let mut places = Items::new(alloc);
    for (at, _) in columns.iter().enumerate() {
        places.push(place_of(at)?)?;
    }
    Ok(places)
}

/// The places of the columns that an INSERT writes, where all of them are there. `names` are the table's columns by their
/// names. An `Err` is want of memory, as a place has 32 bits.
pub fn places_of(
    t: &Table,
    names: &Columns,
    list: &[Identifier],
    alloc: Global,
) -> Result<Option<Items<u32>>, NoMemory>
    requires { names.now ≡ spec.names_of t.now }
    ensures { IfOk result (λ places. places ≡ spec.places_of t.now list.now) }
{
    match list {
        [] => Ok(Some(all_places(t.columns.as_slice(), alloc)?)),
        [_, ..] => places_in(names, list, alloc),
    }
}
