// The foreign keys that concern a table.
ghost use Rattle.std.specs.Prelude.{◌≡◌, ◌++◌, find, OnOk, IfOk};
ghost use Rattle.std.specs.List.{flat_map};
ghost use Rattle.std.specs.Option.{option_copied};
ghost use Rattle.std.specs.Str.{bytes_eq};
ghost use Rattle.hs_references.specs.Referenced as spec;

use crate::one::reference;
use hs_actions::Reference;
use hs_base::{NoMemory, TableNo};
use hs_plan::{Constraint, Rule};
use hs_schema::{Catalog, Child, Table};

// ---- those that reference it

fn push_constraint(
    found: &mut Vec<Reference>,
    cat: &Catalog,
    table: &Table,
    parent: TableNo,
    constraint: Option<&Constraint>,
) -> Result<(), NoMemory>
    ensures { OnOk result (found.new.items ≡ found.old.items ++ spec.by_constraint cat.now table.now parent (option_copied constraint.entry)) }
{
    let Some(constraint) = constraint else {
        return Ok(());
    };
    let Rule::ForeignKey(key) = &constraint.rule else {
        return Ok(());
    };
    found.push(reference(cat, table, parent, constraint.name.as_str(), key)?)?;
    Ok(())
}

// The constraint of this name.
#[tactic(auto, using(crate::proofs::Finding::found, crate::proofs::Finding::passed))]
fn named<'a>(constraints: &'a [Constraint], name: &str) -> Option<&'a Constraint>
    ensures { option_copied result ≡ find (λ c. bytes_eq name.now c.name) constraints.now }
{
    for constraint in constraints {
        if name == constraint.name.as_str() {
            return Some(constraint);
        }
    }
    None
}

// The foreign key of this name of a table.
fn push_named(
    found: &mut Vec<Reference>,
    cat: &Catalog,
    table: &Table,
    parent: TableNo,
    name: &str,
) -> Result<(), NoMemory>
    ensures { OnOk result (found.new.items ≡ found.old.items ++ spec.named_in cat.now parent name.now table.now) }
{
    let constraint = named(table.constraints.as_slice(), name);
    push_constraint(found, cat, table, parent, constraint)
}

fn push_child(
    found: &mut Vec<Reference>,
    cat: &Catalog,
    parent: TableNo,
    child: &Child,
) -> Result<(), NoMemory>
    ensures { OnOk result (found.new.items ≡ found.old.items ++ spec.child_reference cat.now parent child.now) }
{
    match cat.table_numbered(child.table) {
        Some(table) => push_named(found, cat, table, parent, child.constraint.as_str()),
        None => Ok(()),
    }
}

fn push_children(
    found: &mut Vec<Reference>,
    cat: &Catalog,
    parent: TableNo,
    children: &[Child],
) -> Result<(), NoMemory>
    ensures { OnOk result (found.new.items ≡ found.old.items ++ flat_map (spec.child_reference cat.now parent) children.now) }
{
    for child in children {
        push_child(found, cat, parent, child)?;
    }
    Ok(())
}

/// The foreign keys that reference a table, in the order of creation. They are found through the table, so that it takes
/// no look at the others. An `Err` is want of memory.
pub fn references_on(cat: &Catalog, table: TableNo) -> Result<Vec<Reference>, NoMemory>
    ensures { IfOk result (λ found. found.items ≡ spec.references_on cat.now table) }
{
    let mut found = Vec::new(cat.alloc());
    if let Some(parent) = cat.table_numbered(table) {
        push_children(&mut found, cat, table, cat.children(parent.name.as_str()))?;
    }
    Ok(found)
}

// ---- those that it has

fn push_own(
    found: &mut Vec<Reference>,
    cat: &Catalog,
    table: &Table,
    constraint: &Constraint,
) -> Result<(), NoMemory>
    ensures { OnOk result (found.new.items ≡ found.old.items ++ spec.own_by cat.now table.now constraint.now.name constraint.now.rule) }
{
    let Rule::ForeignKey(key) = &constraint.rule else {
        return Ok(());
    };
    let Some(parent) = cat.table(key.parent.as_str()) else {
        return Ok(());
    };
    found.push(reference(cat, table, parent.number, constraint.name.as_str(), key)?)?;
    Ok(())
}

fn push_all_own(found: &mut Vec<Reference>, cat: &Catalog, table: &Table) -> Result<(), NoMemory>
    ensures { OnOk result (found.new.items ≡ found.old.items ++ flat_map (λ c. spec.own_by cat.now table.now c.name c.rule) table.now.constraints) }
{
    for constraint in table.constraints.as_slice() {
        push_own(found, cat, table, constraint)?;
    }
    Ok(())
}

/// The foreign keys that a table has, in the order of creation. An `Err` is want of memory.
pub fn references_of(cat: &Catalog, table: TableNo) -> Result<Vec<Reference>, NoMemory>
    ensures { IfOk result (λ found. found.items ≡ spec.references_of cat.now table) }
{
    let mut found = Vec::new(cat.alloc());
    if let Some(own) = cat.table_numbered(table) {
        push_all_own(&mut found, cat, own)?;
    }
    Ok(found)
}
