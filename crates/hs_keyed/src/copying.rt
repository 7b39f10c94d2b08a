// Copies of rows.
ghost use Rattle.std.specs.Prelude.{◌≡◌, IfOk, OnOk};
ghost use Rattle.std.specs.FinMap.{insert};
ghost use Rattle.hs_keyed.specs.Kept.{rows_of};

use hs_base::NoMemory;
use hs_values::Row;
use std::alloc::Global;
use std::collections::BTreeMap;

/// These rows once more.
pub(crate) fn copied(
    alloc: Global,
    rows: &BTreeMap<u64, Row>,
) -> Result<BTreeMap<u64, Row>, NoMemory>
    ensures { IfOk result (λ made. rows_of made.entries ≡ rows_of rows.now.entries) }
{
    let mut made = BTreeMap::new(alloc);
    for (number, row) in rows {
        put_copy(&mut made, *number, row)?;
    }
    Ok(made)
}

// Puts a copy of a row among others.
fn put_copy(made: &mut BTreeMap<u64, Row>, number: u64, row: &Row) -> Result<(), NoMemory>
    ensures { OnOk result (rows_of made.new.entries ≡ insert (rows_of made.old.entries) number row.now) }
{
    let values = row.copy()?;
    made.insert(number, values)?;
    Ok(())
}
