//! The rows that the actions of foreign keys change, found from the rows that a statement changes: a list of rows that is
//! worked from its front, children found by their keys.
#![tactic(auto)]

mod acting;
mod before;
mod cascade;
mod taking;
mod working;

pub use before::RowsBefore;
pub use cascade::with_actions;
