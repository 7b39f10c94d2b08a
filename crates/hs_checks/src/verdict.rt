// What an evaluation says of a row.
ghost use Rattle.std.specs.Prelude.{◌≡◌, Result, Ok, IfOk};
ghost use Rattle.hs_values.specs.declared.fault.EvalFault.{EvalFault as Fault};
ghost use Rattle.hs_values.specs.declared.value.Value.{Value as SqlValue};
ghost use Rattle.hs_rel.specs.Outcome.{Answers};
ghost use Rattle.hs_checks.specs.Verdict as spec;

use hs_base::NoMemory;
use hs_rel::EvalStop;
use hs_values::{EvalFault, Value};

fn is_true_or_null(value: &Value) -> bool
    ensures { result ≡ spec.lets_pass (Ok value.now) }
{
    match value {
        Value::Null => true,
        Value::Bool(b) => *b,
        _ => false,
    }
}

/// Whether a row passes for which a condition gave this. An `Err` is want of memory, or a stop, which there isn't
/// where rows are in memory.
pub(crate) fn verdict(given: Result<Value, EvalStop>) -> Result<bool, NoMemory>
    ensures { (means : Result SqlValue Fault) → Answers means given → IfOk result (λ is. is ≡ spec.lets_pass means) }
{
    match given {
        Ok(value) => Ok(is_true_or_null(&value)),
        Err(EvalStop::Fault(EvalFault::NoMemory)) => Err(NoMemory),
        Err(EvalStop::Fault(_)) => Ok(false),
        Err(EvalStop::Stop(_)) => Err(NoMemory),
    }
}
