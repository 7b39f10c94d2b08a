// What a statement gives.
use hs_plan::Changes;
use hs_values::RowList;

/// What a bound statement gives.
#[derive(Drop)]
pub enum Answer {
    /// The rows that a query answers, in their order.
    Rows(RowList),
    /// The changes that any other statement makes of rows, which may be none.
    Changes(Changes),
}
