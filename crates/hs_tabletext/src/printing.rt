// Definitions of tables and of columns as they are written.
ghost use Rattle.std.specs.Prelude.{◌≡◌, ◌++◌, ◌∷◌, [], OnOk};
ghost use Rattle.hs_keytext.specs.Owners.{seen};
ghost use Rattle.hs_columntext.specs.Columns as columns;
ghost use Rattle.hs_tabletext.specs.Constraints.{ArePrintable};
ghost use Rattle.hs_tabletext.specs.Columns.{with_column, added_text};
ghost use Rattle.hs_tabletext.specs.Tables.{table_text, body_text};

use crate::added::with_column;
use crate::storage::print_create;
use crate::{Conditions, print_constraint_lines};
use hs_base::NoMemory;
use hs_columntext::{print_column, print_columns};
use hs_keytext::Owner;
use hs_nametext::print_name;
use hs_plan::{Column, Constraint, Storage};
use hs_values::Chars;
use std::alloc::Global;

/// Adds what stands behind the name of a table: its columns, and the lines of its constraints.
fn print_body<C: Conditions>(
    alloc: Global,
    constraints: &[Constraint],
    table: &Owner<'_>,
    conditions: &C,
    out: &mut Chars,
) -> Result<(), NoMemory>
    requires columns { columns.ArePrintable (seen table.now).columns }
    requires constraints { ArePrintable (C.wording conditions.now) (seen table.now).columns constraints.now }
    ensures { OnOk result (out.new ≡ out.old ++ body_text (C.wording conditions.now) (seen table.now) constraints.now) }
{
    out.push_text("(")?;
    print_columns(alloc, table.columns, out)?;
    out.push_text(")")?;
    print_constraint_lines(alloc, constraints, table, conditions, out)
}

/// Adds the definition of this table: `CREATE MEMORY TABLE T(..)`, or CACHED, with all its columns, and behind it the lines
/// of its constraints, each behind a line feed. The values behind DEFAULT are lawful, and the conditions of CHECKs have
/// texts. An `Err` is want of memory, and then a part of the text may be there.
pub fn print_table<C: Conditions>(
    alloc: Global,
    storage: Storage,
    constraints: &[Constraint],
    table: &Owner<'_>,
    conditions: &C,
    out: &mut Chars,
) -> Result<(), NoMemory>
    requires columns { columns.ArePrintable (seen table.now).columns }
    requires constraints { ArePrintable (C.wording conditions.now) (seen table.now).columns constraints.now }
    ensures { OnOk result (out.new ≡ out.old ++ table_text (C.wording conditions.now) (seen table.now) storage constraints.now) }
{
    print_create(storage, out)?;
    print_name(table.name, out)?;
    print_body(alloc, constraints, table, conditions, out)
}

/// Adds the text of a column that is added to this table, given as it was before, and behind it the lines of the column's
/// constraints, each behind a line feed. The value behind DEFAULT is lawful, and the conditions of CHECKs have texts. An
/// `Err` is want of memory, and then a part of the text may be there.
pub fn print_added_column<C: Conditions>(
    alloc: Global,
    column: &Column,
    constraints: &[Constraint],
    table: &Owner<'_>,
    conditions: &C,
    out: &mut Chars,
) -> Result<(), NoMemory>
    requires column { columns.IsPrintable column.now.default }
    requires constraints { ArePrintable (C.wording conditions.now) ((seen table.now).columns ++ column.now ∷ []) constraints.now }
    ensures { OnOk result (out.new ≡ out.old ++ added_text (C.wording conditions.now) (seen table.now) column.now constraints.now) }
{
    let columns = with_column(alloc, table.columns, column)?;
    let owner = Owner {
        name: table.name,
        columns: columns.as_slice(),
        catalog: table.catalog,
    };
    print_column(alloc, column, out)?;
    print_constraint_lines(alloc, constraints, &owner, conditions, out)
}
