// What is done to a table, as it is read behind the table's name.
ghost use Rattle.std.specs.Prelude.{◌++◌, codes, IfOk};
ghost use Rattle.hs_keytext.specs.Owners.{seen};
ghost use Rattle.hs_valuetext.specs.Finding.{Knows};
ghost use Rattle.hs_alterationtext.specs.Alterations.{IsDropped, IsAlterationText};

use crate::alteration::Alteration;
use crate::lone::read_lone;
use hs_keytext::Owner;
use hs_parttext::read_whole_name;
use hs_tabletext::{Conditions, read_added_column};
use hs_values::Name;
use hs_valuetext::behind;
use std::alloc::{AllocError, Global};

/// The column that is added, whose text is all of the text.
fn read_column<C: Conditions>(
    alloc: Global,
    text: &str,
    table: &Owner<'_>,
    conditions: &C,
) -> Result<Option<Alteration>, AllocError>
    ensures { IfOk result (λ found. Knows (λ a. a) (IsAlterationText (C.wording conditions.now) (seen table.now) (codes " ADD COLUMN " ++ text.now)) found) }
{
    match read_added_column(alloc, text, table, conditions)? {
        Some(added) => Ok(Some(Alteration::AddColumn(added))),
        None => Ok(None),
    }
}

/// The constraint that is added, whose text is all of the text.
fn read_added_constraint<C: Conditions>(
    alloc: Global,
    text: &str,
    table: &Owner<'_>,
    conditions: &C,
) -> Result<Option<Alteration>, AllocError>
    ensures { IfOk result (λ found. Knows (λ a. a) (IsAlterationText (C.wording conditions.now) (seen table.now) (codes " ADD CONSTRAINT " ++ text.now)) found) }
{
    match read_lone(alloc, text, table, conditions)? {
        Some(constraint) => Ok(Some(Alteration::AddConstraint(constraint))),
        None => Ok(None),
    }
}

/// The name of the constraint that is dropped, where all of the text says so.
fn read_dropped(alloc: Global, text: &str) -> Result<Option<Name>, AllocError>
    ensures { IfOk result (λ found. Knows (λ n. n) (IsDropped text.now) found) }
{
    match behind(text, " DROP CONSTRAINT ") {
        Some(name) => read_whole_name(alloc, name),
        None => Ok(None),
    }
}

/// What is done to this table, where all of the text says so.
pub(crate) fn read_alteration<C: Conditions>(
    alloc: Global,
    text: &str,
    table: &Owner<'_>,
    conditions: &C,
) -> Result<Option<Alteration>, AllocError>
    ensures { IfOk result (λ found. Knows (λ a. a) (IsAlterationText (C.wording conditions.now) (seen table.now) text.now) found) }
{
    if let Some(column) = behind(text, " ADD COLUMN ") {
        return read_column(alloc, column, table, conditions);
    }
    if let Some(constraint) = behind(text, " ADD CONSTRAINT ") {
        return read_added_constraint(alloc, constraint, table, conditions);
    }
    match read_dropped(alloc, text)? {
        Some(name) => Ok(Some(Alteration::DropConstraint(name))),
        None => Ok(None),
    }
}
