// Conditions of CHECKs.
ghost use Rattle.std.specs.Prelude.{◌≡◌, IfOk};
ghost use Rattle.hs_sentences.specs.Violations.{Checks};

use hs_base::NoMemory;
use hs_plan::Expr;
use hs_values::Value;

/// What evaluates the conditions of CHECKs.
pub trait Check {
    /// Whether a condition lets a row pass: it is TRUE or NULL for it, and no fault.
    ghost checks: { Self → Checks };

    /// Whether a condition lets a row pass. An `Err` is want of memory.
    fn lets_pass(&self, condition: &Expr, row: &[Value]) -> Result<bool, NoMemory>
        ensures { IfOk result (λ is. is ≡ checks self.now condition.now row.now) };
}
