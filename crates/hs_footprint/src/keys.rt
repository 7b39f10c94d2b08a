// Keys that are put or removed.
ghost use Rattle.std.specs.Prelude.{◌≡◌, [], ◌∷◌, ◌++◌, map, OnOk, IfOk};
ghost use Rattle.std.specs.Option.{option_copied};
ghost use Rattle.hs_actions.specs.Work.{was as row_was};
ghost use Rattle.hs_footprint.specs.Touched as spec;

use hs_base::{ConstraintNo, NoMemory, RowName, RowNo, TableNo};
use hs_cascade::RowsBefore;
use hs_claims::{KeyName, KeyNames};
use hs_index::{has_null, key_in};
use hs_plan::{Change, Constraint, Rule};
use hs_schema::Catalog;
use hs_values::Row;
use std::alloc::Global;

/// The columns of a primary key or of a UNIQUE.
pub(crate) fn key_columns(rule: &Rule) -> Option<&[u32]>
    ensures { option_copied result ≡ spec.key_columns rule.now }
{
    match rule {
        Rule::PrimaryKey(columns) => Some(columns.as_slice()),
        Rule::Unique(columns) => Some(columns.as_slice()),
        Rule::NotNull(_) | Rule::Check(_) | Rule::ForeignKey(_) | Rule::Index(_) => None,
    }
}

// The key that a row has in these columns: none with a NULL, and none without a row.
fn key_of(alloc: Global, columns: &[u32], row: Option<&Row>) -> Result<Option<Row>, NoMemory>
    ensures { IfOk result (λ key. key ≡ spec.key_of columns.now (option_copied row.entry)) }
{
    let Some(row) = row else {
        return Ok(None);
    };
    let key = key_in(alloc, columns, row.as_slice())?;
    if has_null(key.as_slice()) {
        return Ok(None);
    }
    Ok(Some(key))
}

fn push(
    keys: &mut KeyNames,
    table: TableNo,
    constraint: ConstraintNo,
    values: Row,
) -> Result<(), NoMemory>
    ensures { OnOk result (keys.new ≡ keys.old ++ spec.key_name table constraint.0 values ∷ []) }
{
    keys.push(KeyName {
        table,
        constraint,
        values,
    })
}

// A key comes or goes, or it is another one than before.
fn push_between(
    keys: &mut KeyNames,
    table: TableNo,
    constraint: ConstraintNo,
    old: Option<Row>,
    new: Option<Row>,
) -> Result<(), NoMemory>
    ensures { OnOk result (keys.new ≡ keys.old ++ map (spec.key_name table constraint.0) (spec.keys_between old new)) }
{
    match (old, new) {
        (None, None) => Ok(()),
        (None, Some(new)) => push(keys, table, constraint, new),
        (Some(old), None) => push(keys, table, constraint, old),
        (Some(old), Some(new)) => {
            if old == new {
                return Ok(());
            }
            push(keys, table, constraint, old)?;
            push(keys, table, constraint, new)
        }
    }
}

fn push_over(
    keys: &mut KeyNames,
    alloc: Global,
    table: TableNo,
    constraint: ConstraintNo,
    rule: &Rule,
    old: Option<&Row>,
    new: Option<&Row>,
) -> Result<(), NoMemory>
    ensures { OnOk result (keys.new ≡ keys.old ++ spec.keys_over table constraint.0 (option_copied old.entry) (option_copied new.entry) (spec.key_columns rule.now)) }
{
    let Some(columns) = key_columns(rule) else {
        return Ok(());
    };
    let before = key_of(alloc, columns, old)?;
    let after = key_of(alloc, columns, new)?;
    push_between(keys, table, constraint, before, after)
}

fn push_all(
    keys: &mut KeyNames,
    alloc: Global,
    table: TableNo,
    constraints: &[Constraint],
    old: Option<&Row>,
    new: Option<&Row>,
) -> Result<(), NoMemory>
    ensures { OnOk result (keys.new ≡ keys.old ++ spec.keys_from table (option_copied old.entry) (option_copied new.entry) 0 constraints.now) }
{
    for (place, constraint) in constraints.iter().enumerate() {
        let number = ConstraintNo(place as u64);
        push_over(keys, alloc, table, number, &constraint.rule, old, new)?;
    }
    Ok(())
}

// The unique keys of a table that a row puts or removes, which was the first and is the second.
fn push_at(
    keys: &mut KeyNames,
    alloc: Global,
    cat: &Catalog,
    table: TableNo,
    old: Option<&Row>,
    new: Option<&Row>,
) -> Result<(), NoMemory>
    ensures { OnOk result (keys.new ≡ keys.old ++ spec.keys_at cat.now table (option_copied old.entry) (option_copied new.entry)) }
{
    match cat.table_numbered(table) {
        Some(found) => push_all(keys, alloc, table, found.constraints.as_slice(), old, new),
        None => Ok(()),
    }
}

fn push_keys<B: RowsBefore>(
    keys: &mut KeyNames,
    alloc: Global,
    cat: &Catalog,
    before: &B,
    change: &Change,
) -> Result<(), NoMemory>
    ensures { OnOk result (keys.new ≡ keys.old ++ spec.keys_of cat.now (B.maps before.now) change.now) }
{
    match change {
        Change::Insert(table, values) => push_at(keys, alloc, cat, *table, None, Some(values)),
        Change::Put(table, row, values) => {
            let old = was(before, *table, *row);
            push_at(keys, alloc, cat, *table, old, Some(values))
        }
        Change::Delete(table, row) => {
            let old = was(before, *table, *row);
            push_at(keys, alloc, cat, *table, old, None)
        }
        Change::Define(_) => Ok(()),
    }
}

fn was<B: RowsBefore>(before: &B, table: TableNo, row: RowNo) -> Option<&Row>
    ensures { option_copied result ≡ row_was (B.maps before.now) (spec.name_of table row) }
{
    before.row(RowName { table, row })
}

fn push_each<B: RowsBefore>(
    keys: &mut KeyNames,
    alloc: Global,
    cat: &Catalog,
    before: &B,
    changes: &[Change],
) -> Result<(), NoMemory>
    ensures { OnOk result (keys.new ≡ keys.old ++ spec.keys_changed cat.now (B.maps before.now) changes.now) }
{
    for change in changes {
        push_keys(keys, alloc, cat, before, change)?;
    }
    Ok(())
}

/// The unique keys that changes put or remove, in their order.
pub(crate) fn keys_changed<B: RowsBefore>(
    alloc: Global,
    cat: &Catalog,
    before: &B,
    changes: &[Change],
) -> Result<KeyNames, NoMemory>
    ensures { IfOk result (λ keys. keys ≡ spec.keys_changed cat.now (B.maps before.now) changes.now) }
{
    let mut keys = KeyNames::new(alloc);
    push_each(&mut keys, alloc, cat, before, changes)?;
    Ok(keys)
}
