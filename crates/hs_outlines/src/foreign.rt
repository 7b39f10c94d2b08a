// Foreign keys.
ghost use Rattle.std.specs.Prelude.{◌≡◌, nat_eq, slice_get, None, IfOk};
ghost use Rattle.std.specs.List.{list_any, zip};
ghost use Rattle.std.specs.Option.{option_copied};
ghost use Rattle.hs_meaning.specs.Finding.{Finds};
ghost use Rattle.hs_outlines.specs.ForeignKeys as spec;
ghost use Rattle.hs_outlines.specs.Outline.{outline_of, seen};
ghost use Rattle.hs_typed.specs.Faults.{noted};

use crate::keys::keys_of;
use crate::notes::{note_no_table, note_repeated, note_unknown};
use crate::outline::{Key, Outline, places_in};
use hs_ast::{ForeignKey, Identifier};
use hs_base::NoMemory;
use hs_elements::Columns;
use hs_meaning::note_types;
use hs_plan::{Cause, Column, PlacedFault};
use hs_schema::{Catalog, Table};
use hs_typed::Faults;
use hs_values::{Name, SqlType};
use sqlite_items::Items;
use std::alloc::Global;

fn is_whole(data_type: &SqlType) -> bool
    ensures { result ≡ spec.is_whole data_type.now }
{
    match data_type {
        SqlType::Small | SqlType::Integer | SqlType::Big => true,
        _ => false,
    }
}

fn has_scale(scale: u8, data_type: &SqlType) -> bool
    ensures { result ≡ spec.has_scale scale data_type.now }
{
    match data_type {
        SqlType::Decimal { scale: its, .. } => scale == *its,
        _ => false,
    }
}

// Whether a column of the first type may reference one of the second.
fn may_reference(child: &SqlType, parent: &SqlType) -> bool
    ensures { result ≡ spec.may_reference child.now parent.now }
{
    match child {
        SqlType::Small | SqlType::Integer | SqlType::Big => is_whole(parent),
        SqlType::Decimal { scale, .. } => has_scale(*scale, parent),
        SqlType::Varchar { .. } => matches!(parent, SqlType::Varchar { .. }),
        SqlType::Bool => matches!(parent, SqlType::Bool),
        SqlType::Date => matches!(parent, SqlType::Date),
        SqlType::Stamp => matches!(parent, SqlType::Stamp),
    }
}

fn are_alike(child: Option<&Column>, parent: Option<&Column>) -> bool
    ensures { result ≡ spec.are_alike (option_copied child.entry) (option_copied parent.entry) }
{
    let Some(child) = child else {
        return false;
    };
    let Some(parent) = parent else {
        return false;
    };
    may_reference(&child.data_type, &parent.data_type)
}

// Whether the columns at two places are of the same kind.
fn alike_at(child: &[Column], parent: &[Column], column: u32, its: u32) -> bool
    ensures { result ≡ spec.are_alike (slice_get child.now column) (slice_get parent.now its) }
{
    are_alike(child.get(column as usize), parent.get(its as usize))
}

// Whether the columns at these places are of the same kinds, one beside the other.
fn all_alike(child: &[Column], parent: &[Column], columns: &[u32], parents: &[u32]) -> bool
    ensures { result ≡ spec.all_alike child.now parent.now (zip columns.now parents.now) }
{
    columns
        .iter()
        .zip(parents)
        .all(|(column, its)| alike_at(child, parent, *column, *its))
}

fn is_among(place: u32, places: &[u32]) -> bool
    ensures { result ≡ list_any (nat_eq place) places.now }
{
    places.iter().any(|p| place == *p)
}

fn are_among(some: &[u32], all: &[u32]) -> bool
    ensures { result ≡ spec.are_among some.now all.now }
{
    some.iter().all(|place| is_among(*place, all))
}

fn same_set(a: &[u32], b: &[u32]) -> bool
    ensures { result ≡ spec.same_set a.now b.now }
{
    are_among(a, b) && are_among(b, a)
}

// Whether there is a key over these columns, in any order.
fn is_key(keys: &[Key], columns: &[u32]) -> bool
    ensures { result ≡ spec.is_key keys.now columns.now }
{
    keys.iter()
        .any(|key| same_set(columns, key.columns.as_slice()))
}

fn primary_key(keys: &[Key], alloc: Global) -> Result<Option<Items<u32>>, NoMemory>
    ensures { IfOk result (λ columns. columns ≡ spec.primary_key keys.now) }
{
    match keys.iter().find(|key| key.primary) {
        Some(key) => Ok(Some(Items::from_slice(alloc, key.columns.as_slice())?)),
        None => Ok(None),
    }
}

fn if_key(keys: &[Key], columns: Option<Items<u32>>) -> Option<Items<u32>>
    ensures { result ≡ spec.if_key keys.now columns }
{
    let Some(columns) = columns else {
        return None;
    };
    if is_key(keys, columns.as_slice()) {
        Some(columns)
    } else {
        None
    }
}

// The columns that a foreign key references: those that are written, or the primary key's.
fn referenced(
    parent: &Outline<'_>,
    list: &[Identifier],
    alloc: Global,
) -> Result<Option<Items<u32>>, NoMemory>
    ensures { IfOk result (λ columns. columns ≡ spec.referenced (seen parent.now) list.now) }
{
    match list {
        [] => primary_key(parent.keys, alloc),
        [_, ..] => Ok(if_key(parent.keys, places_in(parent.names, list, alloc)?)),
    }
}

fn note_unlike(
    element: u32,
    own: &Outline<'_>,
    parent: &Outline<'_>,
    columns: &[u32],
    parents: &[u32],
    faults: &mut Faults,
)
    ensures { faults.new ≡ noted faults.old (spec.unlike_at element (seen own.now) (seen parent.now) columns.now parents.now) }
{
    if columns.len() != parents.len() {
        faults.push(PlacedFault {
            at: 0,
            cause: Cause::Count,
        });
    } else if !all_alike(own.columns, parent.columns, columns, parents) {
        note_types(element, faults);
    }
}

fn key_with(
    key: &ForeignKey,
    columns: Items<u32>,
    parents: Items<u32>,
    alloc: Global,
) -> Result<hs_plan::ForeignKey, NoMemory>
    ensures { IfOk result (λ made. made ≡ spec.key_with key.now columns parents) }
{
    Ok(hs_plan::ForeignKey {
        columns,
        parent: Name::from_text(alloc, key.parent.name.as_str())?,
        parent_columns: parents,
        on_delete: key.on_delete,
        on_update: key.on_update,
    })
}

// A foreign key over the columns of a list, to a table.
fn reference_to<'a>(
    element: u32,
    own: &Outline<'a>,
    list: &[Identifier],
    key: &ForeignKey,
    parent: &Outline<'a>,
    faults: &mut Faults,
    alloc: Global,
) -> Result<Option<hs_plan::ForeignKey>, NoMemory>
    ensures { Finds (spec.reference_to element (seen own.now) list.now key.now (seen parent.now)) faults.old faults.new result }
{
    note_unknown(own.names, list, faults, alloc)?;
    note_repeated(list, faults, alloc)?;
    note_repeated(key.parent_columns.as_slice(), faults, alloc)?;
    let columns = places_in(own.names, list, alloc)?;
    let Some(parents) = referenced(parent, key.parent_columns.as_slice(), alloc)? else {
        note_no_table(&key.parent, faults, alloc)?;
        return Ok(None);
    };
    let Some(columns) = columns else {
        return Ok(None);
    };
    note_unlike(
        element,
        own,
        parent,
        columns.as_slice(),
        parents.as_slice(),
        faults,
    );
    Ok(Some(key_with(key, columns, parents, alloc)?))
}

// A foreign key to a table of the catalogue.
fn reference_to_table(
    element: u32,
    own: &Outline<'_>,
    list: &[Identifier],
    key: &ForeignKey,
    table: &Table,
    faults: &mut Faults,
    alloc: Global,
) -> Result<Option<hs_plan::ForeignKey>, NoMemory>
    ensures { Finds (spec.reference_to element (seen own.now) list.now key.now (outline_of table.now)) faults.old faults.new result }
{
    let names = Columns::of_table(alloc, table.columns.as_slice())?;
    let keys = keys_of(table.constraints.as_slice(), alloc)?;
    let parent = Outline {
        name: table.name.as_str(),
        columns: table.columns.as_slice(),
        names: &names,
        keys: keys.as_slice(),
    };
    reference_to(element, own, list, key, &parent, faults, alloc)
}

// A foreign key to a table that isn't there.
fn reference_to_none(
    element: u32,
    own: &Outline<'_>,
    list: &[Identifier],
    key: &ForeignKey,
    faults: &mut Faults,
    alloc: Global,
) -> Result<Option<hs_plan::ForeignKey>, NoMemory>
    ensures { Finds (spec.reference_to element (seen own.now) list.now key.now (spec.table_or_none key.now.parent.name None)) faults.old faults.new result }
{
    let names = Columns::new(alloc);
    let none = Outline {
        name: key.parent.name.as_str(),
        columns: &[],
        names: &names,
        keys: &[],
    };
    reference_to(element, own, list, key, &none, faults, alloc)
}

/// A foreign key over the columns of a list, in an element at byte `element`. None where its columns or those that it
/// references aren't known. All that is wrong is noted: unknown and repeated columns, a table that has no such key,
/// another number of columns than the key's, and columns of other kinds. An `Err` is want of memory.
pub fn foreign_key(
    catalog: &Catalog,
    element: u32,
    own: &Outline<'_>,
    list: &[Identifier],
    key: &ForeignKey,
    faults: &mut Faults,
    alloc: Global,
) -> Result<Option<hs_plan::ForeignKey>, NoMemory>
    ensures { Finds (spec.foreign_key catalog.now element (seen own.now) list.now key.now) faults.old faults.new result }
{
    let parent = key.parent.name.as_str();
    if parent == own.name {
        let itself = *own;
        return reference_to(element, own, list, key, &itself, faults, alloc);
    }
    match catalog.table(parent) {
        Some(table) => reference_to_table(element, own, list, key, table, faults, alloc),
        None => reference_to_none(element, own, list, key, faults, alloc),
    }
}
