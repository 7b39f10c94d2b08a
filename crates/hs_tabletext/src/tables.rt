// Definitions of tables as they are read.
ghost use Rattle.std.specs.Prelude.{IfOk};
ghost use Rattle.hs_valuetext.specs.Finding.{Knows};
ghost use Rattle.hs_parttext.specs.Named.{IsNamed};
ghost use Rattle.hs_tabletext.specs.Tables.{IsBodyText, IsTableText};

use crate::definition::NewTable;
use crate::storage::read_create;
use crate::{Conditions, read_constraint_lines};
use hs_columntext::read_columns;
use hs_keytext::Owner;
use hs_nametext::read_name;
use hs_plan::{Column, Constraint};
use hs_schema::Catalog;
use hs_values::Name;
use hs_valuetext::behind;
use sqlite_items::Items;
use std::alloc::{AllocError, Global};

/// The columns and the constraints of a table of this name, which are all of the text.
fn read_body<C: Conditions>(
    alloc: Global,
    name: &str,
    text: &str,
    catalog: &Catalog,
    conditions: &C,
) -> Result<Option<(Items<Column>, Items<Constraint>)>, AllocError>
    ensures { IfOk result (λ found. Knows (λ b. b) (IsBodyText (C.wording conditions.now) catalog.now name.now text.now) found) }
{
    let Some(inner) = behind(text, "(") else {
        return Ok(None);
    };
    match read_columns(alloc, inner) {
        Ok(Some((columns, rest))) => {
            let owner = Owner {
                name,
                columns: columns.as_slice(),
                catalog,
            };
            match read_constraint_lines(alloc, rest, &owner, conditions)? {
                Some(constraints) => Ok(Some((columns, constraints))),
                None => Ok(None),
            }
        }
        Ok(None) => Ok(None),
        Err(error) => Err(error),
    }
}

/// The name of a table, its columns and its constraints, which are all of the text.
fn read_named<C: Conditions>(
    alloc: Global,
    text: &str,
    catalog: &Catalog,
    conditions: &C,
) -> Result<Option<(Name, (Items<Column>, Items<Constraint>))>, AllocError>
    ensures { IfOk result (λ found. Knows (λ p. p) (IsNamed (IsBodyText (C.wording conditions.now) catalog.now) text.now) found) }
{
    match read_name(alloc, text) {
        Ok(Some((name, rest))) => {
            match read_body(alloc, name.as_str(), rest, catalog, conditions)? {
                Some(body) => Ok(Some((Name::from_text(alloc, name.as_str())?, body))),
                None => Ok(None),
            }
        }
        Ok(None) => Ok(None),
        Err(error) => Err(error),
    }
}

/// The table whose definition is all of the text: `CREATE MEMORY TABLE T(..)`, or CACHED, with all its columns, and behind it
/// the lines of its constraints, each behind a line feed. None exactly where there is none: where it is written otherwise, a
/// name is none, or a column or a constraint has no such text over this catalogue, which is as it was before. There is never
/// more than one. An `Err` is want of memory.
pub fn read_table<C: Conditions>(
    alloc: Global,
    text: &str,
    catalog: &Catalog,
    conditions: &C,
) -> Result<Option<NewTable>, AllocError>
    ensures { IfOk result (λ found. Knows (λ t. t) (IsTableText (C.wording conditions.now) catalog.now text.now) found) }
{
    let Some((storage, named)) = read_create(text) else {
        return Ok(None);
    };
    match read_named(alloc, named, catalog, conditions)? {
        Some(found) => {
            let (name, body) = found;
            let (columns, constraints) = body;
            Ok(Some(NewTable {
                storage,
                name,
                columns,
                constraints,
            }))
        }
        None => Ok(None),
    }
}
