// Parts that are known together.
ghost use Rattle.std.specs.Prelude.{◌≡◌, IfOk};
ghost use Rattle.hs_meaning.specs.Parts as spec;

use hs_base::NoMemory;
use sqlite_items::Items;

/// Parts with one more behind them: None where one of them isn't known. An `Err` is want of memory.
pub fn with_part<T: Drop>(
    parts: Option<Items<T>>,
    part: Option<T>,
) -> Result<Option<Items<T>>, NoMemory>
    ensures { IfOk result (λ made. made ≡ spec.with_part parts part) }
{
    match (parts, part) {
        (Some(mut parts), Some(part)) => {
            parts.push(part)?;
            Ok(Some(parts))
        }
        (Some(_), None) => Ok(None),
        (None, _) => Ok(None),
    }
}
