// Numbers of tables.
ghost use Rattle.std.specs.Prelude.{◌≡◌, true, IfOk, OnOk};
ghost use Rattle.std.specs.List.{All};
ghost use Rattle.hs_schema.specs.Catalogue as schema;
ghost use Rattle.hs_redefining.specs.Tables as spec;

use hs_base::{NoMemory, TableNo, Tables};
use hs_schema::{Catalog, Thing};
use std::alloc::Global;

/// The number of the table of a name.
pub(crate) fn number_of(cat: &Catalog, name: &str) -> Option<TableNo>
    ensures { result ≡ schema.number_of cat.now name.now }
{
    match cat.table(name) {
        Some(table) => Some(table.number),
        None => None,
    }
}

// Whether a table is one of these.
fn is_in(all: &[TableNo], table: TableNo) -> bool
    ensures { result ≡ spec.is_in all.now table.0 }
{
    for one in all {
        if one.0 == table.0 {
            return true;
        }
    }
    false
}

fn add(all: &mut Tables, one: TableNo) -> Result<(), NoMemory>
    ensures { OnOk result (all.new ≡ spec.with_table all.old one) }
{
    if is_in(all.as_slice(), one) {
        return Ok(());
    }
    all.push(one)
}

/// The tables to which things belong, each once.
pub(crate) fn tables_of(alloc: Global, things: &[Thing]) -> Result<Tables, NoMemory>
    ensures { IfOk result (λ all. All (λ t. spec.is_in all t.table.0 ≡ true) things.now) }
{
    let mut all = Tables::new(alloc);
    for thing in things {
        add(&mut all, thing.table)?;
    }
    Ok(all)
}

/// Whether one of these things belongs to a table.
pub(crate) fn has_thing(things: &[Thing], table: TableNo) -> bool
    ensures { result ≡ spec.has_thing things.now table.0 }
{
    for thing in things {
        if thing.table.0 == table.0 {
            return true;
        }
    }
    false
}
