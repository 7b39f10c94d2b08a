// Lists of values in which equal ones are one.
ghost use Rattle.std.specs.Prelude.{◌≡◌, OnOk};
ghost use Rattle.hs_expression.specs.Distinct.{distinct_values};

use hs_values::Value;
use std::alloc::AllocError;

/// Keeps of equal values the first, in ascending order. NULL and NULL are equal here.
pub(crate) fn keep_distinct(values: &mut Vec<Value>) -> Result<(), AllocError>
    ensures { OnOk result (values.new.items ≡ distinct_values values.old.items) }
{
    values.sort()?;
    values.dedup();
    Ok(())
}
