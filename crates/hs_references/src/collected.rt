// The foreign keys of a catalogue, by the tables that they reference.
ghost use Rattle.std.specs.Prelude.{◌≡◌, ℕ, ◌==◌, ◌++◌, [], OnOk, IfOk, if◌then◌else◌};
ghost use Rattle.hs_actions.specs.Referencing.{keys_on};
ghost use Rattle.hs_acting.specs.Kept.{keys_in};
ghost use Rattle.hs_references.specs.Referenced as spec;
ghost use Rattle.hs_references.specs.Collected.{or_these, told, with_thing};

use crate::found::references_on;
use hs_acting::References;
use hs_actions::Reference;
use hs_base::{NoMemory, TableNo};
use hs_schema::{Catalog, Part, Thing};
use std::alloc::Global;

// Puts foreign keys behind those that reference a table.
fn put_all(
    keys: &mut References,
    alloc: Global,
    table: TableNo,
    found: Vec<Reference>,
) -> Result<(), NoMemory>
    ensures { OnOk result ((t : ℕ) → keys_on (keys_in keys.new) t ≡ keys_on (keys_in keys.old) t ++ (if t == table.0 then found.items else [])) }
{
    for key in found {
        keys.push(alloc, table, key)?;
    }
    Ok(())
}

// Puts those that reference a table, unless they are there.
fn put_table(keys: &mut References, cat: &Catalog, table: TableNo) -> Result<(), NoMemory>
    ensures { OnOk result ((t : ℕ) → keys_on (keys_in keys.new) t ≡ (if t == table.0 then or_these (keys_on (keys_in keys.old) t) (spec.references_on cat.now table) else keys_on (keys_in keys.old) t)) }
{
    if keys.on(table).is_empty() {
        let found = references_on(cat, table)?;
        return put_all(keys, cat.alloc(), table, found);
    }
    Ok(())
}

// Puts those that reference a table where a thing is one.
fn put_thing(keys: &mut References, cat: &Catalog, thing: &Thing) -> Result<(), NoMemory>
    ensures { OnOk result ((t : ℕ) → keys_on (keys_in keys.new) t ≡ with_thing (spec.references_on cat.now) thing.now (keys_on (keys_in keys.old)) t) }
{
    match &thing.part {
        Part::Table { .. } => put_table(keys, cat, thing.table),
        Part::Column(_) => Ok(()),
        Part::Constraint(_) => Ok(()),
    }
}

fn put_things(keys: &mut References, cat: &Catalog, things: &[Thing]) -> Result<(), NoMemory>
    ensures { OnOk result ((t : ℕ) → keys_on (keys_in keys.new) t ≡ told (spec.references_on cat.now) things.now (keys_on (keys_in keys.old)) t) }
{
    for thing in things {
        put_thing(keys, cat, thing)?;
    }
    Ok(())
}

/// The foreign keys of a catalogue, by the tables that they reference, each with all that its actions need. They are made
/// once for a catalogue. An `Err` is want of memory.
pub fn all_references(cat: &Catalog) -> Result<References, NoMemory>
    ensures { IfOk result (λ keys. spec.AreOf cat.now (keys_in keys)) }
{
    let mut keys = References::new(cat.alloc());
    put_things(&mut keys, cat, cat.things())?;
    Ok(keys)
}
