// Columns that are added, as they are read.
ghost use Rattle.std.specs.Prelude.{◌≡◌, ◌++◌, ◌∷◌, [], IfOk};
ghost use Rattle.hs_keytext.specs.Owners.{seen};
ghost use Rattle.hs_valuetext.specs.Finding.{Knows};
ghost use Rattle.hs_tabletext.specs.Columns.{IsBehindColumn, IsAddedText};

use crate::belonging::are_own;
use crate::definition::AddedColumn;
use crate::{Conditions, read_constraint_lines};
use hs_columntext::read_last_column;
use hs_keytext::Owner;
use hs_parttext::first_line;
use hs_plan::{Column, Constraint};
use sqlite_items::Items;
use std::alloc::{AllocError, Global};

/// A copy of the columns of a table, with one more behind them.
pub(crate) fn with_column(
    alloc: Global,
    columns: &[Column],
    column: &Column,
) -> Result<Items<Column>, AllocError>
    ensures { IfOk result (λ made. made ≡ columns.now ++ column.now ∷ []) }
{
    let mut copied = Items::new(alloc);
    for one in columns {
        copied.push(one.copy()?)?;
    }
    copied.push(column.copy()?)?;
    Ok(copied)
}

/// The constraints of a column that is added to this table, whose lines are all of the text.
fn read_own_lines<C: Conditions>(
    alloc: Global,
    column: &Column,
    text: &str,
    table: &Owner<'_>,
    conditions: &C,
) -> Result<Option<Items<Constraint>>, AllocError>
    ensures { IfOk result (λ found. Knows (λ c. c) (IsBehindColumn (C.wording conditions.now) (seen table.now) column.now text.now) found) }
{
    let columns = with_column(alloc, table.columns, column)?;
    let owner = Owner {
        name: table.name,
        columns: columns.as_slice(),
        catalog: table.catalog,
    };
    match read_constraint_lines(alloc, text, &owner, conditions)? {
        Some(constraints) => {
            if are_own(table.columns.len(), constraints.as_slice()) {
                Ok(Some(constraints))
            } else {
                Ok(None)
            }
        }
        None => Ok(None),
    }
}

/// The column that is added to this table, given as it was before, where the column's text, and behind it the lines of its
/// constraints, each behind a line feed, are all of the text. None exactly where there is none: where it is written
/// otherwise, the column or a constraint has no such text, or a constraint isn't the column's own: it is NOT NULL or a key of
/// other columns. There is never more than one. An `Err` is want of memory.
pub fn read_added_column<C: Conditions>(
    alloc: Global,
    text: &str,
    table: &Owner<'_>,
    conditions: &C,
) -> Result<Option<AddedColumn>, AllocError>
    ensures { IfOk result (λ found. Knows (λ a. a) (IsAddedText (C.wording conditions.now) (seen table.now) text.now) found) }
{
    let (line, rest) = first_line(text);
    let Some(column) = read_last_column(alloc, line)? else {
        return Ok(None);
    };
    match read_own_lines(alloc, &column, rest, table, conditions)? {
        Some(constraints) => Ok(Some(AddedColumn {
            column,
            constraints,
        })),
        None => Ok(None),
    }
}
