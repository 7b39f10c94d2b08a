// The keys of a table, and those of a definition's text.
ghost use Rattle.std.specs.Prelude.{◌≡◌, ◌++◌, [], ◌∷◌, OnOk, IfOk};
ghost use Rattle.hs_outlines.specs.Elements.{elements_of};
ghost use Rattle.hs_outlines.specs.Outline as spec;

use crate::element::Elements;
use crate::outline::{Key, places_in};
use hs_ast::{ColumnConstraint, ColumnRule, Identifier, TableElement, TableRule};
use hs_base::NoMemory;
use hs_elements::Columns;
use hs_plan::{Constraint, Rule};
use sqlite_items::Items;
use std::alloc::Global;
use std::slice::from_ref;

// Puts a key behind the others.
fn add(keys: &mut Items<Key>, primary: bool, columns: Items<u32>) -> Result<(), NoMemory>
    ensures { OnOk result (keys.new ≡ keys.old ++ record { primary = primary; columns = columns } ∷ []) }
{
    keys.push(Key { primary, columns })?;
    Ok(())
}

// Puts the key that a constraint of a table is behind the others.
fn add_by_rule(keys: &mut Items<Key>, rule: &Rule, alloc: Global) -> Result<(), NoMemory>
    ensures { OnOk result (keys.new ≡ keys.old ++ spec.key_by rule.now) }
{
    match rule {
        Rule::PrimaryKey(columns) => {
            add(keys, true, Items::from_slice(alloc, columns.as_slice())?)
        }
        Rule::Unique(columns) => add(keys, false, Items::from_slice(alloc, columns.as_slice())?),
        Rule::NotNull(_) | Rule::Check(_) | Rule::ForeignKey(_) | Rule::Index(_) => Ok(()),
    }
}

/// The keys of a table of the catalogue. An `Err` is want of memory.
pub fn keys_of(constraints: &[Constraint], alloc: Global) -> Result<Items<Key>, NoMemory>
    ensures { IfOk result (λ keys. keys ≡ spec.keys_of constraints.now) }
{
    let mut keys = Items::new(alloc);
    for constraint in constraints {
        add_by_rule(&mut keys, &constraint.rule, alloc)?;
    }
    Ok(keys)
}

// Puts the key over these columns behind the others, where all are known.
fn add_over(
    keys: &mut Items<Key>,
    primary: bool,
    names: &Columns,
    list: &[Identifier],
    alloc: Global,
) -> Result<(), NoMemory>
    ensures { OnOk result (keys.new ≡ keys.old ++ spec.key_over primary (spec.places_in names.now list.now)) }
{
    match places_in(names, list, alloc)? {
        Some(columns) => add(keys, primary, columns),
        None => Ok(()),
    }
}

fn add_by_column(
    keys: &mut Items<Key>,
    names: &Columns,
    name: &Identifier,
    rule: &ColumnRule,
    alloc: Global,
) -> Result<(), NoMemory>
    ensures { OnOk result (keys.new ≡ keys.old ++ spec.key_in_column names.now name.now rule.now) }
{
    match rule {
        ColumnRule::PrimaryKey => add_over(keys, true, names, from_ref(name), alloc),
        ColumnRule::Unique => add_over(keys, false, names, from_ref(name), alloc),
        ColumnRule::NotNull | ColumnRule::Check(_) | ColumnRule::References(_) => Ok(()),
    }
}

fn add_by_table(
    keys: &mut Items<Key>,
    names: &Columns,
    rule: &TableRule,
    alloc: Global,
) -> Result<(), NoMemory>
    ensures { OnOk result (keys.new ≡ keys.old ++ spec.key_in_table names.now rule.now) }
{
    match rule {
        TableRule::PrimaryKey(list) => add_over(keys, true, names, list.as_slice(), alloc),
        TableRule::Unique(list) => add_over(keys, false, names, list.as_slice(), alloc),
        TableRule::Check(_) | TableRule::ForeignKey(_, _) => Ok(()),
    }
}

fn add_by_columns(
    keys: &mut Items<Key>,
    names: &Columns,
    name: &Identifier,
    constraints: &[ColumnConstraint],
    alloc: Global,
) -> Result<(), NoMemory>
    ensures { OnOk result (keys.new ≡ keys.old ++ spec.keys_in_column names.now name.now constraints.now) }
{
    for constraint in constraints {
        add_by_column(keys, names, name, &constraint.rule, alloc)?;
    }
    Ok(())
}

fn add_by_element(
    keys: &mut Items<Key>,
    names: &Columns,
    element: &TableElement,
    alloc: Global,
) -> Result<(), NoMemory>
    ensures { OnOk result (keys.new ≡ keys.old ++ spec.keys_in names.now element.now) }
{
    match element {
        TableElement::Column(c) => {
            add_by_columns(keys, names, &c.name, c.constraints.as_slice(), alloc)
        }
        TableElement::Constraint(t) => add_by_table(keys, names, &t.rule, alloc),
    }
}

fn add_by_all(
    keys: &mut Items<Key>,
    names: &Columns,
    all: &[TableElement],
    alloc: Global,
) -> Result<(), NoMemory>
    ensures { OnOk result (keys.new ≡ keys.old ++ spec.keys_written names.now all.now) }
{
    for element in all {
        add_by_element(keys, names, element, alloc)?;
    }
    Ok(())
}

/// Puts the keys of a text behind the others. An `Err` is want of memory.
pub fn add_keys(
    keys: &mut Items<Key>,
    names: &Columns,
    elements: Elements<'_>,
    alloc: Global,
) -> Result<(), NoMemory>
    ensures { OnOk result (keys.new ≡ keys.old ++ spec.keys_written names.now (elements_of elements.entry)) }
{
    match elements {
        Elements::All(all) => add_by_all(keys, names, all, alloc),
        Elements::Column(c) => {
            add_by_columns(keys, names, &c.name, c.constraints.as_slice(), alloc)
        }
        Elements::Constraint(t) => add_by_table(keys, names, &t.rule, alloc),
    }
}
