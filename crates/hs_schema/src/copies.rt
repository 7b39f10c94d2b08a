// Copies of what a catalogue keeps.
ghost use Rattle.std.specs.Prelude.{◌≡◌, IfOk};
ghost use Rattle.hs_schema.specs.Texts.{texts};

use crate::table::Table;
use crate::thing::Thing;
use hs_base::{NoMemory, TableNo};
use indexmap::IndexMap;
use std::alloc::Global;

pub(crate) fn copy_things(things: &[Thing], alloc: Global) -> Result<Vec<Thing>, NoMemory>
    ensures { IfOk result (λ copied. copied.items ≡ things.now) }
{
    let mut copied = Vec::with_capacity(alloc, things.len())?;
    for thing in things {
        copied.push(thing.copy(alloc)?)?;
    }
    Ok(copied)
}

pub(crate) fn copy_tables(
    tables: &IndexMap<u64, Table>,
    alloc: Global,
) -> Result<IndexMap<u64, Table>, NoMemory>
    ensures { IfOk result (λ copied. copied.entries ≡ tables.now.entries) }
{
    let mut copied = IndexMap::with_capacity(alloc, tables.len())?;
    for (number, table) in tables {
        copied.insert(*number, table.copy(alloc)?)?;
    }
    Ok(copied)
}

pub(crate) fn copy_names(
    names: &IndexMap<String, TableNo>,
) -> Result<IndexMap<String, TableNo>, NoMemory>
    ensures { IfOk result (λ copied. texts copied.entries ≡ texts names.now.entries) }
{
    Ok(names.clone()?)
}
