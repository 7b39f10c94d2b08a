//! The values of expressions over the rows around them, exactly as the definitions of `hs_expression` say: expressions
//! without subqueries, conditions, and aggregates over a group. A column and a literal are lent and not copied.
#![tactic(auto)]

mod evaluated;
mod evaluation;
mod gathered;
mod parts;
mod value;

pub use evaluated::Evaluated;
pub use evaluation::evaluate;
pub use value::{is_met, value_at};
