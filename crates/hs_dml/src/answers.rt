// Answers of queries.
ghost use Rattle.hs_values.specs.Outcome.{Gives};
ghost use Rattle.hs_dml.specs.Told.{Answer};

use hs_plan::Query;
use hs_values::{EvalFault, RowList};

/// What answers queries.
pub trait Answers {
    /// The rows that a query gives, or its fault.
    ghost answer: { Self → Answer };

    /// The rows that a query gives, in their order. `NoMemory` is want of memory.
    fn rows(&self, query: &Query) -> Result<RowList, EvalFault>
        ensures { Gives result (answer self.now query.now) };
}
