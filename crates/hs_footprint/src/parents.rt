// Keys of parents that rows name.
ghost use Rattle.std.specs.Prelude.{◌≡◌, ◌++◌, map, nat_eq, position, Some, OnOk, IfOk};
ghost use Rattle.std.specs.List.{flat_map};
ghost use Rattle.hs_index.specs.Keys.{value_at};
ghost use Rattle.hs_sentences.specs.Asking.{is_one_of};
ghost use Rattle.hs_footprint.specs.Touched as spec;

use crate::keys::key_columns;
use hs_base::{ConstraintNo, NoMemory, TableNo};
use hs_claims::{KeyName, KeyNames};
use hs_index::{has_null, key_in};
use hs_plan::{Change, Constraint, ForeignKey, Rule};
use hs_schema::{Catalog, Table};
use hs_values::{Row, Value};
use std::alloc::Global;

fn has(columns: &[u32], column: u32) -> bool
    ensures { result ≡ is_one_of columns.now column }
{
    columns.iter().any(|one| column == *one)
}

fn has_all(columns: &[u32], others: &[u32]) -> bool
    ensures { result ≡ spec.has_all columns.now others.now }
{
    others.iter().all(|other| has(columns, *other))
}

// Whether a rule is a key over these columns, in any order.
fn is_key_over(rule: &Rule, columns: &[u32]) -> bool
    ensures { result ≡ spec.are_same (spec.key_columns rule.now) columns.now }
{
    match key_columns(rule) {
        Some(own) => has_all(own, columns) && has_all(columns, own),
        None => false,
    }
}

// The place of the first key of a table over these columns.
fn key_over(table: &Table, columns: &[u32]) -> Option<usize>
    ensures { result ≡ spec.key_over table.now columns.now }
{
    table
        .constraints
        .as_slice()
        .iter()
        .position(|constraint| is_key_over(&constraint.rule, columns))
}

fn columns_at(table: &Table, place: usize) -> &[u32]
    ensures { result.now ≡ spec.columns_at table.now place }
{
    let Some(constraint) = table.constraints.get(place) else {
        return &[];
    };
    match key_columns(&constraint.rule) {
        Some(columns) => columns,
        None => &[],
    }
}

// The place of a column among these.
fn place_in(columns: &[u32], column: u32) -> Option<usize>
    ensures { result ≡ position (nat_eq column) columns.now }
{
    columns.iter().position(|own| column == *own)
}

// The column of the child that is paired with one of the parent.
fn paired(key: &ForeignKey, column: u32) -> Option<u32>
    ensures { result ≡ spec.paired key.now column }
{
    match place_in(key.parent_columns.as_slice(), column) {
        Some(at) => key.columns.get(at).copied(),
        None => None,
    }
}

// What a row names in a column of the parent.
#[tactic(auto, unfolding(crate::specs::Touched::named_value))]
fn named_value(key: &ForeignKey, row: &[Value], column: u32) -> Result<Value, NoMemory>
    ensures { IfOk result (λ value. value ≡ spec.named_value key.now row.now column) }
{
    match paired(key, column) {
        Some(own) => value_in(row, own),
        None => Ok(Value::Null),
    }
}

// The value in a column, and NULL where there is no such column.
fn value_in(row: &[Value], column: u32) -> Result<Value, NoMemory>
    ensures { IfOk result (λ value. value ≡ value_at row.now column) }
{
    match row.get(column as usize) {
        Some(value) => Ok(value.copy()?),
        None => Ok(Value::Null),
    }
}

fn named_values(
    alloc: Global,
    key: &ForeignKey,
    row: &[Value],
    columns: &[u32],
) -> Result<Row, NoMemory>
    ensures { IfOk result (λ values. values ≡ map (spec.named_value key.now row.now) columns.now) }
{
    let mut values = Vec::with_capacity(alloc, columns.len())?;
    for column in columns {
        values.push(named_value(key, row, *column)?)?;
    }
    Ok(Row::from_vec(values))
}

fn push_named(
    keys: &mut KeyNames,
    alloc: Global,
    parent: &Table,
    key: &ForeignKey,
    row: &[Value],
) -> Result<(), NoMemory>
    ensures { OnOk result (keys.new ≡ keys.old ++ spec.named_in (Some parent.now) key.now row.now) }
{
    let Some(place) = key_over(parent, key.parent_columns.as_slice()) else {
        return Ok(());
    };
    let values = named_values(alloc, key, row, columns_at(parent, place))?;
    keys.push(KeyName {
        table: parent.number,
        constraint: ConstraintNo(place as u64),
        values,
    })
}

fn push_key(
    keys: &mut KeyNames,
    alloc: Global,
    cat: &Catalog,
    row: &[Value],
    key: &ForeignKey,
) -> Result<(), NoMemory>
    ensures { OnOk result (keys.new ≡ keys.old ++ spec.named_by cat.now row.now (Rule.ForeignKey key.now)) }
{
    let own = key_in(alloc, key.columns.as_slice(), row)?;
    if has_null(own.as_slice()) {
        return Ok(());
    }
    match cat.table(key.parent.as_str()) {
        Some(parent) => push_named(keys, alloc, parent, key, row),
        None => Ok(()),
    }
}

fn push_by(
    keys: &mut KeyNames,
    alloc: Global,
    cat: &Catalog,
    row: &[Value],
    rule: &Rule,
) -> Result<(), NoMemory>
    ensures { OnOk result (keys.new ≡ keys.old ++ spec.named_by cat.now row.now rule.now) }
{
    match rule {
        Rule::ForeignKey(key) => push_key(keys, alloc, cat, row, key),
        Rule::NotNull(_)
        | Rule::PrimaryKey(_)
        | Rule::Unique(_)
        | Rule::Check(_)
        | Rule::Index(_) => Ok(()),
    }
}

fn push_all(
    keys: &mut KeyNames,
    alloc: Global,
    cat: &Catalog,
    row: &[Value],
    constraints: &[Constraint],
) -> Result<(), NoMemory>
    ensures { OnOk result (keys.new ≡ keys.old ++ flat_map (λ c. spec.named_by cat.now row.now c.rule) constraints.now) }
{
    for constraint in constraints {
        push_by(keys, alloc, cat, row, &constraint.rule)?;
    }
    Ok(())
}

fn push_at(
    keys: &mut KeyNames,
    alloc: Global,
    cat: &Catalog,
    table: TableNo,
    row: &[Value],
) -> Result<(), NoMemory>
    ensures { OnOk result (keys.new ≡ keys.old ++ spec.parents_at cat.now table row.now) }
{
    match cat.table_numbered(table) {
        Some(found) => push_all(keys, alloc, cat, row, found.constraints.as_slice()),
        None => Ok(()),
    }
}

fn push_parents(
    keys: &mut KeyNames,
    alloc: Global,
    cat: &Catalog,
    change: &Change,
) -> Result<(), NoMemory>
    ensures { OnOk result (keys.new ≡ keys.old ++ spec.parents_of cat.now change.now) }
{
    match change {
        Change::Insert(table, values) => push_at(keys, alloc, cat, *table, values.as_slice()),
        Change::Put(table, _, values) => push_at(keys, alloc, cat, *table, values.as_slice()),
        Change::Delete(_, _) => Ok(()),
        Change::Define(_) => Ok(()),
    }
}

fn push_each(
    keys: &mut KeyNames,
    alloc: Global,
    cat: &Catalog,
    changes: &[Change],
) -> Result<(), NoMemory>
    ensures { OnOk result (keys.new ≡ keys.old ++ spec.parents_named cat.now changes.now) }
{
    for change in changes {
        push_parents(keys, alloc, cat, change)?;
    }
    Ok(())
}

/// The parent keys that the rows name which changes put, in their order.
pub(crate) fn parents_named(
    alloc: Global,
    cat: &Catalog,
    changes: &[Change],
) -> Result<KeyNames, NoMemory>
    ensures { IfOk result (λ keys. keys ≡ spec.parents_named cat.now changes.now) }
{
    let mut keys = KeyNames::new(alloc);
    push_each(&mut keys, alloc, cat, changes)?;
    Ok(keys)
}
