// The columns of a table that gets one more.
ghost use Rattle.std.specs.Prelude.{◌≡◌, ◌++◌, ◌∷◌, [], IfOk};

use hs_base::NoMemory;
use hs_plan::Column;
use sqlite_items::Items;
use std::alloc::Global;

/// A copy of columns, with one more behind them. An `Err` is want of memory.
pub(crate) fn with_column(
    alloc: Global,
    columns: &[Column],
    column: &Column,
) -> Result<Items<Column>, NoMemory>
    ensures { IfOk result (λ made. made ≡ columns.now ++ column.now ∷ []) }
{
    let mut copied = Items::new(alloc);
    for one in columns {
        copied.push(one.copy()?)?;
    }
    copied.push(column.copy()?)?;
    Ok(copied)
}
