// Copies of what a definition makes.
ghost use Rattle.std.specs.Prelude.{◌≡◌, ℕ, ◌<◌, List, [], ◌∷◌, ◌++◌, None, Some, string_bytes, IfOk, OnOk, OnErr};
ghost use Rattle.std.specs.HashMap.{spare};
ghost use Rattle.std.specs.Map.{lookup};
ghost use Rattle.std.specs.Option.{option_map, option_map_or};
ghost use Rattle.std.specs.Str.{bytes_eq};
ghost use Rattle.hs_schema.specs.Catalogue as spec;
ghost use Rattle.hs_schema.specs.Kept.{AreFree, IsFree};
ghost use Rattle.hs_schema.specs.Texts.{texts};

use crate::thing::{Part, Thing};
use hs_base::{NoMemory, TableNo};
use hs_plan::{Column, Constraint};
use indexmap::IndexMap;
use sqlite_items::Items;
use std::alloc::Global;

pub(crate) fn copy_columns(columns: &[Column], alloc: Global) -> Result<Items<Column>, NoMemory>
    ensures { IfOk result (λ copied. copied ≡ columns.now) }
{
    let mut copied = Items::new(alloc);
    for column in columns {
        copied.push(column.copy()?)?;
    }
    Ok(copied)
}

pub(crate) fn copy_constraints(
    constraints: &[Constraint],
    alloc: Global,
) -> Result<Items<Constraint>, NoMemory>
    ensures { IfOk result (λ copied. copied ≡ constraints.now) }
{
    let mut copied = Items::new(alloc);
    for constraint in constraints {
        copied.push(constraint.copy(alloc)?)?;
    }
    Ok(copied)
}

/// Puts a column of a table, where there is one, behind the things that a definition makes.
pub(crate) fn column_thing(
    column: Option<&Column>,
    number: u64,
    table: TableNo,
    out: &mut Vec<Thing>,
) -> Result<(), NoMemory>
    ensures { OnOk result (out.new.items ≡ out.old.items ++ spec.column_made number table (option_map (λ c. c.now) column.entry)) }
{
    match column {
        Some(column) => {
            let part = Part::Column(column.copy()?);
            out.push(Thing {
                number,
                table,
                part,
            })?;
            Ok(())
        }
        None => Ok(()),
    }
}

/// Puts constraints of a table behind the things that a definition makes.
pub(crate) fn constraint_things(
    constraints: &[Constraint],
    number: u64,
    table: TableNo,
    out: &mut Vec<Thing>,
) -> Result<(), NoMemory>
    ensures { OnOk result (out.new.items ≡ out.old.items ++ spec.constraints_made number table constraints.now) }
{
    let alloc = *out.allocator();
    for constraint in constraints {
        let part = Part::Constraint(constraint.copy(alloc)?);
        out.push(Thing {
            number,
            table,
            part,
        })?;
    }
    Ok(())
}

// Puts the name of a constraint or an index behind the others.
fn own(owners: &mut IndexMap<String, TableNo>, thing: &Thing) -> Result<(), NoMemory>
    requires { IsFree (texts owners.old.entries) thing.now.part }
    ensures ok { OnOk result (texts owners.new.entries ≡ texts owners.old.entries ++ spec.owned_in thing.now.table thing.now.part) }
    ensures err { OnErr result (texts owners.new.entries ≡ texts owners.old.entries) }
{
    if let Part::Constraint(constraint) = &thing.part {
        let name = constraint.name.copy()?.into_string();
        owners.insert(name, thing.table)?;
    }
    Ok(())
}

/// Puts the name of a table behind the others, where it is new.
pub(crate) fn name_table(
    numbers: &mut IndexMap<String, TableNo>,
    name: Option<String>,
    table: TableNo,
)
    requires room { 0 < spare numbers.old }
    requires new { (n : List ℕ) → option_map string_bytes name ≡ Some n → lookup (bytes_eq n) (texts numbers.old.entries) ≡ None }
    ensures { texts numbers.new.entries ≡ texts numbers.old.entries ++ option_map_or (λ n. (string_bytes n, table) ∷ []) name [] }
{
    if let Some(name) = name {
        let _none = numbers.insert(name, table).unwrap();
    }
}

/// Puts the names of constraints and indexes behind the others. After an `Err`, which is want of memory, nothing is
/// changed.
pub(crate) fn own_all(
    owners: &mut IndexMap<String, TableNo>,
    more: &[Thing],
) -> Result<(), NoMemory>
    requires { AreFree (texts owners.old.entries) more.now }
    ensures ok { OnOk result (texts owners.new.entries ≡ texts owners.old.entries ++ spec.owned more.now) }
    ensures err { OnErr result (texts owners.new.entries ≡ texts owners.old.entries) }
{
    let kept = owners.len();
    for thing in more {
        if let Err(e) = own(owners, thing) {
            owners.truncate(kept);
            return Err(e);
        }
    }
    Ok(())
}
