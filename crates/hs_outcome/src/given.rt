// What a statement gives.
use hs_plan::Changes;
use hs_values::{EvalFault, RowList};

/// What a bound data statement gives over rows, before the constraints are asked of its changes.
#[derive(Drop)]
pub enum Given {
    /// The rows that a query answers, in their order.
    Rows(RowList),
    /// The changes of an INSERT, an UPDATE or a DELETE, and how many rows it puts or deletes itself.
    Changes(Changes, usize),
    /// LOCK TABLE gives nothing but its reply.
    Locked,
    /// A definition and a session's statement are told elsewhere.
    Nothing,
    /// The fault for which it is refused.
    Fault(EvalFault),
}
