// Bound queries.
use hs_meaning::PlacedColumn;
use hs_plan::Query;

/// What a query means: its output columns, and its plan, which is None where it breaks a rule.
#[derive(Drop)]
pub struct BoundQuery {
    pub columns: Vec<PlacedColumn>,
    pub plan: Option<Query>,
}
