// What goes when a table, or a constraint or an index, is dropped.
ghost use Rattle.std.specs.Prelude.{◌≡◌, ℕ, nat_eq, not, ◌&&◌, filter, if◌then◌else◌};
ghost use Rattle.std.specs.HashMap.{get};
ghost use Rattle.std.specs.Option.{option_map};
ghost use Rattle.std.specs.Str.{bytes_eq};
ghost use Rattle.hs_schema.specs.Catalogue as spec;
ghost use Rattle.hs_schema.specs.Kept.{without};
ghost use Rattle.hs_schema.specs.Texts.{texts};

use crate::table::Table;
use crate::thing::Thing;
use hs_base::TableNo;
use indexmap::IndexMap;

/// Takes a table and what belongs to it out of the things.
pub(crate) fn drop_things(things: &mut Vec<Thing>, table: TableNo)
    ensures { things.new.items ≡ spec.without_table things.old.items table }
{
    things.retain(|thing| thing.table != table);
}

/// Takes a table's constraint or index out of the things.
pub(crate) fn drop_thing(things: &mut Vec<Thing>, table: TableNo, name: &str)
    ensures { things.new.items ≡ spec.without_constraint things.old.items name.now table }
{
    things.retain(|thing| !(thing.table == table && thing.part.is_constraint(name)));
}

/// Takes the names of a table, or of its constraints and indexes, out of a map.
pub(crate) fn drop_names(names: &mut IndexMap<String, TableNo>, table: TableNo)
    ensures { texts names.new.entries ≡ filter (λ e. not (nat_eq table.0 e.1.0)) (texts names.old.entries) }
{
    names.retain(|_name: &String, its: &mut TableNo| *its != table);
}

/// Takes the name of a table's constraint or index out of a map.
pub(crate) fn drop_name(names: &mut IndexMap<String, TableNo>, table: TableNo, name: &str)
    ensures { texts names.new.entries ≡ filter (λ e. not (nat_eq table.0 e.1.0 && bytes_eq name.now e.0)) (texts names.old.entries) }
{
    names.retain(|its_name: &String, its: &mut TableNo| {
        !(*its == table && name == its_name.as_str())
    });
}

/// Takes the constraint or index of a name out of a table.
pub(crate) fn drop_from(tables: &mut IndexMap<u64, Table>, table: TableNo, name: &str)
    ensures { (m : ℕ) → get nat_eq tables.new m ≡ (if nat_eq table.0 m then option_map (without name.now) (get nat_eq tables.old m) else get nat_eq tables.old m) }
{
    if let Some(found) = tables.get_mut(&table.0) {
        found.drop_constraint(name);
    }
}
