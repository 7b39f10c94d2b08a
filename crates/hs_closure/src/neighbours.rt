// The tables that the constraints of a table look at.
ghost use Rattle.std.specs.Prelude.{◌≡◌, nat_eq, map, OnOk};
ghost use Rattle.std.specs.List.{flat_map};
ghost use Rattle.indexmap.specs.IndexSet.{insert_all};
ghost use Rattle.hs_closure.specs.Changing as spec;
ghost use Rattle.hs_closure.specs.Steps as step;

use crate::changing::links;
use crate::table_set::TableSet;
use hs_base::{NoMemory, TableNo};
use hs_plan::{Constraint, Rule};
use hs_schema::{Catalog, Child};

// Adds the table that a foreign key references.
fn add_parent(cat: &Catalog, rule: &Rule, set: &mut TableSet) -> Result<(), NoMemory>
    ensures { OnOk result (set.new ≡ insert_all nat_eq set.old (step.numbers (spec.parent_by cat.now rule.now))) }
{
    let Rule::ForeignKey(key) = rule else {
        return Ok(());
    };
    match cat.table(key.parent.as_str()) {
        Some(parent) => set.add(parent.number),
        None => Ok(()),
    }
}

fn add_parents(
    cat: &Catalog,
    constraints: &[Constraint],
    set: &mut TableSet,
) -> Result<(), NoMemory>
    ensures { OnOk result (set.new ≡ insert_all nat_eq set.old (step.numbers (spec.parents_by cat.now constraints.now))) }
{
    for constraint in constraints {
        add_parent(cat, &constraint.rule, set)?;
    }
    Ok(())
}

fn add_children(links: &[Child], set: &mut TableSet) -> Result<(), NoMemory>
    ensures { OnOk result (set.new ≡ insert_all nat_eq set.old (step.numbers (map (λ c. c.table) links.now))) }
{
    for link in links {
        set.add(link.table)?;
    }
    Ok(())
}

// Adds the tables that a table references, and those that reference it.
fn add_neighbours(cat: &Catalog, table: TableNo, set: &mut TableSet) -> Result<(), NoMemory>
    ensures { OnOk result (set.new ≡ insert_all nat_eq set.old (step.numbers (spec.neighbours cat.now table))) }
{
    if let Some(found) = cat.table_numbered(table) {
        add_parents(cat, found.constraints.as_slice(), set)?;
    }
    add_children(links(cat, table), set)
}

/// Adds the neighbours of tables.
pub(crate) fn add_all_neighbours(
    cat: &Catalog,
    tables: &TableSet,
    set: &mut TableSet,
) -> Result<(), NoMemory>
    ensures { OnOk result (set.new ≡ insert_all nat_eq set.old (flat_map (step.neighbours_of cat.now) tables.now)) }
{
    for number in tables.as_slice() {
        add_neighbours(cat, TableNo(*number), set)?;
    }
    Ok(())
}
