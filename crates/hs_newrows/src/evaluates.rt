// Values of expressions, and what conditions ask.
ghost use Rattle.std.specs.Prelude.{IfOk};
ghost use Rattle.hs_lookups.specs.Asked.{Asks};
ghost use Rattle.hs_values.specs.Outcome.{Gives};
ghost use Rattle.hs_tentative.specs.NewRows.{Evaluate};

use hs_lookups::Equalities;
use hs_plan::Expr;
use hs_values::{EvalFault, Row, Value};
use std::alloc::{AllocError, Global};

/// What evaluates expressions.
pub trait Evaluates {
    /// What an expression gives over a row.
    ghost evaluate: { Self → Evaluate };

    /// What an expression gives over a row. `NoMemory` is want of memory.
    fn value(&self, e: &Expr, row: &Row) -> Result<Value, EvalFault>
        ensures { Gives result (evaluate self.now e.now row.now) };

    /// The columns of a row that a condition asks to have some value. An `Err` is want of memory.
    fn equalities(&self, alloc: Global, condition: &Expr) -> Result<Equalities, AllocError>
        ensures { IfOk result (λ all. Asks (evaluate self.now condition.now) all.columns.items all.values) };
}
