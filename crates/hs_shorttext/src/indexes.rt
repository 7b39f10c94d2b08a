// Indexes as they are read.
ghost use Rattle.std.specs.Prelude.{[], codes, IfOk};
ghost use Rattle.hs_keytext.specs.Places.{AreColumnsAt};
ghost use Rattle.hs_parttext.specs.Named.{IsNamed};
ghost use Rattle.hs_valuetext.specs.Finding.{Knows};
ghost use Rattle.hs_shorttext.specs.Indexes.{AreListed, IsOn, IsIndexText};

use crate::index::NewIndex;
use hs_keytext::read_places;
use hs_nametext::read_name;
use hs_plan::Column;
use hs_schema::Catalog;
use hs_values::Name;
use hs_valuetext::behind;
use sqlite_items::Items;
use std::alloc::{AllocError, Global};

/// Columns with a closing parenthesis behind them, which are all of the text.
fn read_last_places(
    alloc: Global,
    text: &str,
    columns: &[Column],
) -> Result<Option<Items<u32>>, AllocError>
    ensures { IfOk result (λ found. Knows (λ p. p) (λ places. AreColumnsAt columns.now text.now places []) found) }
{
    match read_places(alloc, text, columns) {
        Ok(Some((places, rest))) => {
            if rest.is_empty() {
                Ok(Some(places))
            } else {
                Ok(None)
            }
        }
        Ok(None) => Ok(None),
        Err(error) => Err(error),
    }
}

/// Columns of the catalogue's table of this name, between parentheses, which are all of the text.
fn read_listed(
    alloc: Global,
    table: &str,
    text: &str,
    catalog: &Catalog,
) -> Result<Option<Items<u32>>, AllocError>
    ensures { IfOk result (λ found. Knows (λ p. p) (AreListed catalog.now table.now text.now) found) }
{
    let Some(inner) = behind(text, "(") else {
        return Ok(None);
    };
    match catalog.table(table) {
        Some(found) => read_last_places(alloc, inner, found.columns.as_slice()),
        None => Ok(None),
    }
}

/// The name of a table, and columns of it, which are all of the text.
fn read_table(
    alloc: Global,
    text: &str,
    catalog: &Catalog,
) -> Result<Option<(Name, Items<u32>)>, AllocError>
    ensures { IfOk result (λ found. Knows (λ p. p) (IsNamed (AreListed catalog.now) text.now) found) }
{
    match read_name(alloc, text) {
        Ok(Some((name, rest))) => match read_listed(alloc, name.as_str(), rest, catalog)? {
            Some(places) => Ok(Some((Name::from_text(alloc, name.as_str())?, places))),
            None => Ok(None),
        },
        Ok(None) => Ok(None),
        Err(error) => Err(error),
    }
}

/// What stands behind the index's name.
fn read_on(
    alloc: Global,
    text: &str,
    catalog: &Catalog,
) -> Result<Option<(Name, Items<u32>)>, AllocError>
    ensures { IfOk result (λ found. Knows (λ p. p) (IsOn catalog.now [] text.now) found) }
{
    match behind(text, " ON ") {
        Some(table) => read_table(alloc, table, catalog),
        None => Ok(None),
    }
}

/// The index's name, and what stands behind it.
fn read_named(
    alloc: Global,
    text: &str,
    catalog: &Catalog,
) -> Result<Option<(Name, (Name, Items<u32>))>, AllocError>
    ensures { IfOk result (λ found. Knows (λ p. p) (IsNamed (IsOn catalog.now) text.now) found) }
{
    match read_name(alloc, text) {
        Ok(Some((name, rest))) => match read_on(alloc, rest, catalog)? {
            Some(on) => Ok(Some((Name::from_text(alloc, name.as_str())?, on))),
            None => Ok(None),
        },
        Ok(None) => Ok(None),
        Err(error) => Err(error),
    }
}

/// The index whose line is all of the text: `CREATE INDEX I ON T(C,D)`, T being a table of the catalogue, and the columns its
/// own, none of them twice. None exactly where there is none: where it is written otherwise, a name is none, there is no such
/// table, or a column isn't there or stands twice. There is never more than one. An `Err` is want of memory.
pub fn read_index(
    alloc: Global,
    text: &str,
    catalog: &Catalog,
) -> Result<Option<NewIndex>, AllocError>
    ensures { IfOk result (λ found. Knows (λ i. i) (IsIndexText catalog.now text.now) found) }
{
    let Some(named) = behind(text, "CREATE INDEX ") else {
        return Ok(None);
    };
    match read_named(alloc, named, catalog)? {
        Some(found) => {
            let (name, on) = found;
            let (table, columns) = on;
            Ok(Some(NewIndex {
                name,
                table,
                columns,
            }))
        }
        None => Ok(None),
    }
}
