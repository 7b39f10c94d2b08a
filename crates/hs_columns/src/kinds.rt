// The kinds of columns, and columns without their places.
ghost use Rattle.std.specs.Prelude.{◌≡◌, IfOk};
ghost use Rattle.hs_meaning.specs.Expressions.{kinds_of};
ghost use Rattle.hs_meaning.specs.Queries.{outputs, unknown};

use hs_base::NoMemory;
use hs_meaning::PlacedColumn;
use hs_plan::Kind;
use hs_scope::OutputColumn;
use sqlite_items::Items;
use std::alloc::Global;

/// The kinds of columns: None where one of them isn't known. An `Err` is want of memory.
pub fn kinds_of(columns: &[PlacedColumn], alloc: Global) -> Result<Option<Items<Kind>>, NoMemory>
    ensures { IfOk result (λ kinds. kinds ≡ kinds_of columns.now) }
{
    let mut kinds = Items::new(alloc);
    for column in columns {
        match column.column.kind {
            Some(kind) => kinds.push(kind)?,
            None => return Ok(None),
        }
    }
    Ok(Some(kinds))
}

/// The same columns, with nothing known of their values. Takes no memory.
pub fn forget_kinds(columns: &mut [PlacedColumn])
    ensures { columns.new ≡ unknown columns.old }
{
    for column in columns.iter_mut() {
        column.column.kind = None;
    }
}

/// Copies of columns without their places. An `Err` is want of memory.
pub fn outputs_of(columns: &[PlacedColumn], alloc: Global) -> Result<Items<OutputColumn>, NoMemory>
    ensures { IfOk result (λ made. made ≡ outputs columns.now) }
{
    let mut made = Items::new(alloc);
    for column in columns {
        made.push(column.column.copy()?)?;
    }
    Ok(made)
}

/// Columns without their places. An `Err` is want of memory.
pub fn into_outputs(
    columns: Vec<PlacedColumn>,
    alloc: Global,
) -> Result<Items<OutputColumn>, NoMemory>
    ensures { IfOk result (λ made. made ≡ outputs columns.items) }
{
    let mut made = Items::new(alloc);
    for column in columns {
        made.push(column.column)?;
    }
    Ok(made)
}
