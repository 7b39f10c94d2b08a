// Values of VALUES and of SET.
ghost use Rattle.std.specs.Prelude.{◌≡◌, OnOk};
ghost use Rattle.hs_meaning.specs.Parts.{all};
ghost use Rattle.hs_meaning.specs.Finding.{Finds};
ghost use Rattle.hs_typed.specs.Faults.{noted};
ghost use Rattle.hs_writing.specs.Values as spec;

use crate::parts::expression_for;
use hs_ast::NewValue as WrittenValue;
use hs_base::NoMemory;
use hs_binding::Binder;
use hs_columns::{note_uneven, with_part};
use hs_plan::NewValue;
use hs_schema::Catalog;
use hs_scope::Scope;
use hs_typed::{Faults, Typed};
use hs_values::SqlType;
use sqlite_items::Items;
use std::alloc::Global;

fn as_value(part: Option<Typed>) -> Option<NewValue>
    ensures { result ≡ spec.as_value part }
{
    match part {
        Some(typed) => Some(NewValue::Value(typed.tree)),
        None => None,
    }
}

/// A value or DEFAULT for a column of a type, or for one that isn't there. An `Err` is want of memory.
#[tactic(auto, unfolding(crate::specs::Values::value_for))]
pub fn value_for<B: Binder>(
    binder: &B,
    column: Option<SqlType>,
    value: &WrittenValue,
    scope: &Scope,
    catalog: &Catalog,
    faults: &mut Faults,
    alloc: Global,
) -> Result<Option<NewValue>, NoMemory>
    ensures { Finds (spec.value_for catalog.now scope.now column value.now) faults.old faults.new result }
{
    match value {
        WrittenValue::Expression(e) => {
            let part = expression_for(binder, e, column, scope, catalog, faults, alloc)?;
            Ok(as_value(part))
        }
        WrittenValue::Default(_) => Ok(Some(NewValue::Default)),
    }
}

// Each value for the column above it.
fn values_below<B: Binder>(
    binder: &B,
    columns: &[Option<SqlType>],
    values: &[WrittenValue],
    scope: &Scope,
    catalog: &Catalog,
    faults: &mut Faults,
    alloc: Global,
) -> Result<Option<Items<NewValue>>, NoMemory>
    ensures { Finds (all (spec.values_below catalog.now scope.now columns.now values.now)) faults.old faults.new result }
{
    let mut made = Some(Items::new(alloc));
    for (i, column) in columns.iter().enumerate() {
        if i >= values.len() {
            return Ok(made);
        }
        let value = &values[i];
        let part = value_for(binder, *column, value, scope, catalog, faults, alloc)?;
        made = with_part(made, part)?;
    }
    Ok(made)
}

// Notes the faults of values that are paired with no column.
fn note_unpaired<B: Binder>(
    binder: &B,
    values: &[WrittenValue],
    scope: &Scope,
    catalog: &Catalog,
    faults: &mut Faults,
    alloc: Global,
) -> Result<(), NoMemory>
    ensures { OnOk result (faults.new ≡ noted faults.old (spec.unpaired catalog.now scope.now values.now)) }
{
    for value in values {
        let _part = value_for(binder, None, value, scope, catalog, faults, alloc)?;
    }
    Ok(())
}

/// A row of VALUES for columns of these types. Where it has more or fewer values, this is noted, and nothing is paired. An
/// `Err` is want of memory.
#[tactic(auto, unfolding(crate::specs::Values::tuple_meaning))]
pub fn tuple_for<B: Binder>(
    binder: &B,
    columns: &[Option<SqlType>],
    values: &[WrittenValue],
    scope: &Scope,
    catalog: &Catalog,
    faults: &mut Faults,
    alloc: Global,
) -> Result<Option<Items<NewValue>>, NoMemory>
    ensures { Finds (spec.tuple_meaning catalog.now scope.now columns.now values.now) faults.old faults.new result }
{
    if columns.len() == values.len() {
        return values_below(binder, columns, values, scope, catalog, faults, alloc);
    }
    note_uneven(faults);
    note_unpaired(binder, values, scope, catalog, faults, alloc)?;
    Ok(None)
}
