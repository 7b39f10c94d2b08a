// Several parts together.
ghost use Rattle.std.specs.Prelude.{◌≡◌, IfOk};
ghost use Rattle.std.specs.Option.{option_map};
ghost use Rattle.hs_meaning.specs.Expressions.{arm_by};
ghost use Rattle.hs_meaning.specs.Parts as spec;

use hs_base::NoMemory;
use hs_typed::{Typed, TypedArm};

/// The parts so far with one more behind them, where all are known. An `Err` is want of memory.
pub fn with_part<T: Drop>(
    parts: Option<Vec<T>>,
    part: Option<T>,
) -> Result<Option<Vec<T>>, NoMemory>
    ensures { IfOk result (λ made. option_map (λ l. l.items) made ≡ spec.with_part (option_map (λ l. l.items) parts) part) }
{
    match (parts, part) {
        (Some(mut parts), Some(part)) => {
            parts.push(part)?;
            Ok(Some(parts))
        }
        _ => Ok(None),
    }
}

/// `WHEN test THEN value`, where both are known.
pub fn arm(test: Option<Typed>, value: Option<Typed>) -> Option<TypedArm>
    ensures { result ≡ arm_by test value }
{
    match (test, value) {
        (Some(test), Some(value)) => Some(TypedArm { test, value }),
        _ => None,
    }
}
