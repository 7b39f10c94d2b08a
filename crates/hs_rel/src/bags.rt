// Distinct rows, unions, intersections and differences.
ghost use Rattle.std.specs.Prelude.{◌≡◌, IfOk, IsOkUnless};
ghost use Rattle.hs_rel.specs.Bags.{distinct_rows, united, intersected, excepted};
ghost use Rattle.hs_rel.specs.Outcome.{IsMemoryAlone};

use crate::sorting::{both_references, copies, keep_among, keep_distinct, references};
use crate::stop::EvalStop;
use hs_values::RowList;
use std::alloc::Global;

/// One of equal rows each, in ascending order. NULLs are equal. Of equal rows the first is kept, and only
/// what is kept is copied. An `Err` is want of memory.
pub fn distinct(alloc: Global, rows: &RowList) -> Result<RowList, EvalStop>
    ensures rows { IfOk result (λ answer. answer ≡ distinct_rows rows.now) }
    ensures err { IsMemoryAlone result }
{
    let mut kept = references(alloc, rows.as_slice())?;
    keep_distinct(&mut kept)?;
    Ok(copies(alloc, &kept)?)
}

/// The rows of both sides: with `all` those of the left side and then those of the right, else one of equal
/// rows each, in ascending order. NULLs are equal. An `Err` is want of memory.
pub fn union(alloc: Global, left: &RowList, right: &RowList, all: bool) -> Result<RowList, EvalStop>
    ensures rows { IfOk result (λ answer. answer ≡ united all left.now right.now) }
    ensures err { IsMemoryAlone result }
{
    let mut kept = both_references(alloc, left.as_slice(), right.as_slice())?;
    if !all {
        keep_distinct(&mut kept)?;
    }
    Ok(copies(alloc, &kept)?)
}

/// The left rows that are among the right ones, one of equal rows each, in ascending order. NULLs are equal.
/// An `Err` is want of memory.
pub fn intersect(alloc: Global, left: &RowList, right: &RowList) -> Result<RowList, EvalStop>
    ensures rows { IfOk result (λ answer. answer ≡ intersected left.now right.now) }
    ensures err { IsMemoryAlone result }
{
    let mut kept = references(alloc, left.as_slice())?;
    keep_distinct(&mut kept)?;
    keep_among(alloc, &mut kept, right, true)?;
    Ok(copies(alloc, &kept)?)
}

/// The left rows that aren't among the right ones, one of equal rows each, in ascending order. NULLs are
/// equal. An `Err` is want of memory.
pub fn except(alloc: Global, left: &RowList, right: &RowList) -> Result<RowList, EvalStop>
    ensures rows { IfOk result (λ answer. answer ≡ excepted left.now right.now) }
    ensures err { IsMemoryAlone result }
{
    let mut kept = references(alloc, left.as_slice())?;
    keep_distinct(&mut kept)?;
    keep_among(alloc, &mut kept, right, false)?;
    Ok(copies(alloc, &kept)?)
}
