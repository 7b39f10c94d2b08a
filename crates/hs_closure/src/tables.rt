// The tables that a statement reads and those that it writes.
ghost use Rattle.std.specs.Prelude.{◌≡◌, ◌↔◌, true, map, IfOk};
ghost use Rattle.std.specs.List.{Contains};
ghost use Rattle.std.specs.List.Sorted.{IsStrictlyIncreasing};
ghost use Rattle.hs_base.specs.declared.numbers.TableNo.{TableNo};
ghost use Rattle.hs_closure.specs.Changing as spec;
ghost use Rattle.hs_closure.specs.Sets.{is_in};

use crate::alone::{only, put_into, reads_none};
use crate::changing::{add_others, changed_tables};
use crate::neighbours::add_all_neighbours;
use crate::table_set::TableSet;
use hs_base::{NoMemory, Tables};
use hs_plan::{Plan, named_in_plan};
use hs_schema::Catalog;
use std::alloc::Global;

fn written(alloc: Global, plan: &Plan, cat: &Catalog) -> Result<TableSet, NoMemory>
    ensures { IfOk result (λ set. (table : TableNo) → (is_in set table.0 ≡ true) ↔ spec.IsWritten cat.now plan.now table) }
{
    let changing = changed_tables(alloc, plan, cat)?;
    let mut set = TableSet::new(alloc);
    add_others(plan, &mut set)?;
    set.add_set(&changing.updated)?;
    set.add_set(&changing.deleted)?;
    Ok(set)
}

fn needed(
    alloc: Global,
    plan: &Plan,
    cat: &Catalog,
    written: &TableSet,
) -> Result<TableSet, NoMemory>
    ensures { IfOk result (λ set. ((table : TableNo) → (is_in written.now table.0 ≡ true) ↔ spec.IsWritten cat.now plan.now table) → (table : TableNo) → (is_in set table.0 ≡ true) ↔ spec.IsNeeded cat.now plan.now table) }
{
    let mut named = Tables::new(alloc);
    named_in_plan(plan, &mut named)?;
    let mut set = TableSet::new(alloc);
    set.add_all(named.as_slice())?;
    add_all_neighbours(cat, written, &mut set)?;
    Ok(set)
}

/// The tables that a statement writes, each once and in ascending order: the target of an INSERT, UPDATE or DELETE, the tables
/// that LOCK TABLE names for WRITE, and the tables whose rows the actions of foreign keys may change by an UPDATE or a
/// DELETE. A child of a table of which rows are deleted loses rows by ON DELETE CASCADE, and its rows change by ON DELETE SET
/// NULL and SET DEFAULT. A child of a table of which rows change changes by ON UPDATE CASCADE, SET NULL and SET DEFAULT. No
/// other statement writes rows of tables. Looks at each foreign key of these tables a few times. An `Err` is want of memory.
pub fn tables_written(alloc: Global, plan: &Plan, cat: &Catalog) -> Result<Tables, NoMemory>
    ensures ascending { IfOk result (λ tables. IsStrictlyIncreasing (map (λ t. t.0) tables)) }
    ensures written { IfOk result (λ tables. (table : TableNo) → Contains tables table ↔ spec.IsWritten cat.now plan.now table) }
{
    if let Some(table) = put_into(plan) {
        return only(alloc, table);
    }
    let set = written(alloc, plan, cat)?;
    let none = TableSet::new(alloc);
    set.list_without(alloc, &none)
}

/// The tables that a statement reads and doesn't write, each once and in ascending order: those that its queries, its WHERE
/// and LOCK TABLE .. READ name, those that foreign keys of written tables reference, and those whose foreign keys
/// reference written tables. An `Err` is want of memory.
pub fn tables_read(alloc: Global, plan: &Plan, cat: &Catalog) -> Result<Tables, NoMemory>
    ensures ascending { IfOk result (λ tables. IsStrictlyIncreasing (map (λ t. t.0) tables)) }
    ensures read { IfOk result (λ tables. (table : TableNo) → Contains tables table ↔ spec.IsRead cat.now plan.now table) }
{
    if reads_none(alloc, plan, cat)? {
        return Ok(Tables::new(alloc));
    }
    let written = written(alloc, plan, cat)?;
    let set = needed(alloc, plan, cat, &written)?;
    set.list_without(alloc, &written)
}
