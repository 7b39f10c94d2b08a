//! Whether two bound expressions are the same: whether they are equal as trees, with what the text doesn't show, as the kinds at
//! which numbers are given and the dates that texts are read as. It is told of expressions without queries and aggregates,
//! which the conditions of CHECK are. So it is told of definitions and of changes too.
#![tactic(auto)]

mod changes;
mod definitions;
mod expressions;
mod operators;
mod rows;
mod values;

pub use changes::same_changes;
pub use definitions::same_definition;
pub use expressions::is_same;
