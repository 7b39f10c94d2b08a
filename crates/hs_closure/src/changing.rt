// Which tables' rows a statement changes itself or by the actions of foreign keys.
ghost use Rattle.std.specs.Prelude.{◌≡◌, nat_eq, IfOk, OnOk};
ghost use Rattle.std.specs.List.{flat_map};
ghost use Rattle.indexmap.specs.IndexSet.{insert_all};
ghost use Rattle.hs_closure.specs.Changing as spec;
ghost use Rattle.hs_closure.specs.Sets.{IsClosure};
ghost use Rattle.hs_closure.specs.Steps as step;

use crate::table_set::TableSet;
use crate::way::{Way, follows};
use hs_base::{NoMemory, TableNo};
use hs_plan::{LockedTable, Plan};
use hs_schema::{Catalog, Child};
use std::alloc::Global;

/// The foreign keys that reference a table, in the order of creation.
pub(crate) fn links(cat: &Catalog, table: TableNo) -> &[Child]
    ensures { result.now ≡ spec.links cat.now table }
{
    match cat.table_numbered(table) {
        Some(table) => cat.children(table.name.as_str()),
        None => &[],
    }
}

// Adds the children of a table whose rows are changed in the way `to` where those of the table are in the way `from`.
fn add_followers(
    cat: &Catalog,
    table: TableNo,
    from: Way,
    to: Way,
    set: &mut TableSet,
) -> Result<(), NoMemory>
    ensures { OnOk result (set.new ≡ insert_all nat_eq set.old (step.followers cat.now from to table.0)) }
{
    for link in links(cat, table) {
        if follows(from, to, link) {
            set.add(link.table)?;
        }
    }
    Ok(())
}

// Adds the children whose rows are changed in the same way, and theirs, until nothing is added. Looks at each foreign key
// of each of these tables once.
fn close(cat: &Catalog, way: Way, set: &mut TableSet) -> Result<(), NoMemory>
    ensures { OnOk result (IsClosure (step.followers cat.now way way) set.old set.new) }
{
    for at in 0..usize::MAX {
        let Some(table) = set.get(at) else {
            return Ok(());
        };
        add_followers(cat, table, way, way, set)?;
    }
    Err(NoMemory)
}

// Adds the children of deleted tables whose rows are changed.
fn carry(cat: &Catalog, deleted: &TableSet, updated: &mut TableSet) -> Result<(), NoMemory>
    ensures { OnOk result (updated.new ≡ insert_all nat_eq updated.old (flat_map (step.followers cat.now (Way.Deletion) (Way.Update)) deleted.now)) }
{
    for number in deleted.as_slice() {
        add_followers(cat, TableNo(*number), Way::Deletion, Way::Update, updated)?;
    }
    Ok(())
}

/// The tables whose rows are changed in each way.
#[derive(Drop)]
pub(crate) struct Changing {
    pub(crate) updated: TableSet,
    pub(crate) deleted: TableSet,
}

// The table that an UPDATE or a DELETE names.
fn target(alloc: Global, plan: &Plan) -> Result<Changing, NoMemory>
    ensures updated { IfOk result (λ set. set.updated ≡ step.update_target plan.now) }
    ensures deleted { IfOk result (λ set. set.deleted ≡ step.delete_target plan.now) }
{
    let mut updated = TableSet::new(alloc);
    let mut deleted = TableSet::new(alloc);
    match plan {
        Plan::Update(update) => updated.add(update.table)?,
        Plan::Delete(delete) => deleted.add(delete.table)?,
        Plan::Query(_)
        | Plan::Insert(_)
        | Plan::LockTable(_)
        | Plan::Define(_)
        | Plan::Session(_) => {}
    }
    Ok(Changing { updated, deleted })
}

/// The tables whose rows a statement changes, itself or by the actions of foreign keys.
pub(crate) fn changed_tables(
    alloc: Global,
    plan: &Plan,
    cat: &Catalog,
) -> Result<Changing, NoMemory>
    ensures { IfOk result (λ set. step.IsExact cat.now plan.now set.updated set.deleted) }
{
    let Changing {
        mut updated,
        mut deleted,
    } = target(alloc, plan)?;
    close(cat, Way::Deletion, &mut deleted)?;
    carry(cat, &deleted, &mut updated)?;
    close(cat, Way::Update, &mut updated)?;
    Ok(Changing { updated, deleted })
}

fn add_locked(all: &[LockedTable], set: &mut TableSet) -> Result<(), NoMemory>
    ensures { OnOk result (set.new ≡ insert_all nat_eq set.old (step.numbers (flat_map spec.locked all.now))) }
{
    for one in all {
        if one.write {
            set.add(one.table)?;
        }
    }
    Ok(())
}

/// Adds the table into which an INSERT puts rows, or those that are locked for WRITE.
pub(crate) fn add_others(plan: &Plan, set: &mut TableSet) -> Result<(), NoMemory>
    ensures { OnOk result (set.new ≡ insert_all nat_eq set.old (step.numbers (spec.put_or_locked plan.now))) }
{
    match plan {
        Plan::Insert(insert) => set.add(insert.table),
        Plan::LockTable(all) => add_locked(all.as_slice(), set),
        Plan::Query(_) | Plan::Update(_) | Plan::Delete(_) | Plan::Define(_) | Plan::Session(_) =>
            Ok(()),
    }
}
