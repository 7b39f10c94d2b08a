// Foreign keys as they are read.
ghost use Rattle.std.specs.Prelude.{IfOk};
ghost use Rattle.hs_valuetext.specs.Finding.{Knows};
ghost use Rattle.hs_keytext.specs.ForeignKeys.{IsReferenced, IsParentNamed, IsParent, IsBehindColumns, IsForeignKeyText};
ghost use Rattle.hs_keytext.specs.Owners.{seen};

use crate::actions::read_actions;
use crate::owner::{Owner, parent_columns};
use crate::places::read_places;
use hs_nametext::read_name;
use hs_plan::{Column, ForeignKey, ReferentialAction};
use hs_values::Name;
use hs_valuetext::behind;
use sqlite_items::Items;
use std::alloc::{AllocError, Global};

/// The columns of the parent and the actions, which are all of the text.
fn read_referenced(
    alloc: Global,
    text: &str,
    columns: &[Column],
) -> Result<Option<(Items<u32>, (ReferentialAction, ReferentialAction))>, AllocError>
    ensures { IfOk result (λ found. Knows (λ r. r) (IsReferenced columns.now text.now) found) }
{
    let Some(inner) = behind(text, "(") else {
        return Ok(None);
    };
    match read_places(alloc, inner, columns) {
        Ok(Some((places, rest))) => match read_actions(rest) {
            Some(actions) => Ok(Some((places, actions))),
            None => Ok(None),
        },
        Ok(None) => Ok(None),
        Err(error) => Err(error),
    }
}

/// The parent of this name, with what stands behind the name, which is all of the text.
fn read_named(
    alloc: Global,
    name: &str,
    text: &str,
    owner: &Owner<'_>,
) -> Result<Option<(Name, (Items<u32>, (ReferentialAction, ReferentialAction)))>, AllocError>
    ensures { IfOk result (λ found. Knows (λ p. p) (IsParentNamed (seen owner.now) name.now text.now) found) }
{
    match read_referenced(alloc, text, parent_columns(owner, name))? {
        Some(referenced) => {
            let name = Name::from_text(alloc, name)?;
            Ok(Some((name, referenced)))
        }
        None => Ok(None),
    }
}

/// The parent with its columns and the actions, which are all of the text.
fn read_parent(
    alloc: Global,
    text: &str,
    owner: &Owner<'_>,
) -> Result<Option<(Name, (Items<u32>, (ReferentialAction, ReferentialAction)))>, AllocError>
    ensures { IfOk result (λ found. Knows (λ p. p) (IsParent (seen owner.now) text.now) found) }
{
    match read_name(alloc, text) {
        Ok(Some((name, rest))) => read_named(alloc, name.as_str(), rest, owner),
        Ok(None) => Ok(None),
        Err(error) => Err(error),
    }
}

/// The foreign key of these columns whose parent stands behind them, which is all of the text.
fn read_behind(
    alloc: Global,
    columns: Items<u32>,
    text: &str,
    owner: &Owner<'_>,
) -> Result<Option<ForeignKey>, AllocError>
    ensures { IfOk result (λ found. Knows (λ k. k) (IsBehindColumns (seen owner.now) columns text.now) found) }
{
    let Some(parent_text) = behind(text, " REFERENCES ") else {
        return Ok(None);
    };
    match read_parent(alloc, parent_text, owner)? {
        Some(found) => {
            let (parent, referenced) = found;
            let (parent_columns, (on_delete, on_update)) = referenced;
            if columns.len() == parent_columns.len() {
                Ok(Some(ForeignKey {
                    columns,
                    parent,
                    parent_columns,
                    on_delete,
                    on_update,
                }))
            } else {
                Ok(None)
            }
        }
        None => Ok(None),
    }
}

/// The foreign key of this owner whose text is all of the text. None exactly where there is none: where it is written
/// otherwise, a name is no column's, a column stands twice, the parent is neither the owner nor a table of the catalogue, or
/// the numbers of columns differ. There is never more than one. An `Err` is want of memory.
pub fn read_foreign_key(
    alloc: Global,
    text: &str,
    owner: &Owner<'_>,
) -> Result<Option<ForeignKey>, AllocError>
    ensures { IfOk result (λ found. Knows (λ k. k) (IsForeignKeyText (seen owner.now) text.now) found) }
{
    let Some(inner) = behind(text, "FOREIGN KEY(") else {
        return Ok(None);
    };
    match read_places(alloc, inner, owner.columns) {
        Ok(Some((columns, rest))) => read_behind(alloc, columns, rest, owner),
        Ok(None) => Ok(None),
        Err(error) => Err(error),
    }
}
