// Lines of ALTER TABLE as they are read.
ghost use Rattle.std.specs.Prelude.{IfOk};
ghost use Rattle.hs_parttext.specs.Named.{IsNamed};
ghost use Rattle.hs_valuetext.specs.Finding.{Knows};
ghost use Rattle.hs_alterationtext.specs.Alterations.{IsAltered, IsAlterText};

use crate::alteration::Alteration;
use crate::alterations::read_alteration;
use hs_keytext::Owner;
use hs_nametext::read_name;
use hs_schema::Catalog;
use hs_tabletext::Conditions;
use hs_values::Name;
use hs_valuetext::behind;
use std::alloc::{AllocError, Global};

/// What is done to the catalogue's table of this name, where all of the text says so.
fn read_altered<C: Conditions>(
    alloc: Global,
    name: &str,
    text: &str,
    catalog: &Catalog,
    conditions: &C,
) -> Result<Option<Alteration>, AllocError>
    ensures { IfOk result (λ found. Knows (λ a. a) (IsAltered (C.wording conditions.now) catalog.now name.now text.now) found) }
{
    match catalog.table(name) {
        Some(found) => {
            let owner = Owner {
                name,
                columns: found.columns.as_slice(),
                catalog,
            };
            read_alteration(alloc, text, &owner, conditions)
        }
        None => Ok(None),
    }
}

/// The table's name, and what is done to it, which are all of the text.
fn read_named<C: Conditions>(
    alloc: Global,
    text: &str,
    catalog: &Catalog,
    conditions: &C,
) -> Result<Option<(Name, Alteration)>, AllocError>
    ensures { IfOk result (λ found. Knows (λ p. p) (IsNamed (IsAltered (C.wording conditions.now) catalog.now) text.now) found) }
{
    match read_name(alloc, text) {
        Ok(Some((name, rest))) => {
            match read_altered(alloc, name.as_str(), rest, catalog, conditions)? {
                Some(alteration) => {
                    Ok(Some((Name::from_text(alloc, name.as_str())?, alteration)))
                }
                None => Ok(None),
            }
        }
        Ok(None) => Ok(None),
        Err(error) => Err(error),
    }
}

/// The name of the table that is altered, and what is done to it, where its line is all of the text:
/// `ALTER TABLE T ADD COLUMN ..` with the lines of the column's constraints, `ALTER TABLE T ADD CONSTRAINT N ..`, or
/// `ALTER TABLE T DROP CONSTRAINT N`. None exactly where there is none: where it is written otherwise, a name is none, the
/// catalogue has no such table, or the column or a constraint has no such text. NOT NULL isn't added alone. There is never
/// more than one. An `Err` is want of memory.
pub fn read_alter<C: Conditions>(
    alloc: Global,
    text: &str,
    catalog: &Catalog,
    conditions: &C,
) -> Result<Option<(Name, Alteration)>, AllocError>
    ensures { IfOk result (λ found. Knows (λ p. p) (IsAlterText (C.wording conditions.now) catalog.now text.now) found) }
{
    match behind(text, "ALTER TABLE ") {
        Some(named) => read_named(alloc, named, catalog, conditions),
        None => Ok(None),
    }
}
