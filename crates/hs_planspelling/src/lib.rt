//! Bound plans as texts, for tests and for people who read plans. No plan is read from such a text.
//!
//! A node is its word and its parts in parentheses. A SELECT has its parts in the order in which they are evaluated:
//! `(select (from (table 3 2)) (where (= (column 0 1) 5)) (items (column 0 0)))` is the first column of table 3,
//! which has two, of the rows whose second column is 5. In `(column 1 0)` the 1 is how many SELECTs outward the row
//! is.
#![tactic(auto)]

mod definitions;
mod expressions;
mod operators;
mod plans;
mod queries;
mod sessions;
mod values;

pub use plans::spell_plan;
