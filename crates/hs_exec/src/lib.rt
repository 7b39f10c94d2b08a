//! What a bound statement gives over any rows: the rows of a query, or the changes of an INSERT, an UPDATE or a DELETE,
//! those of foreign key actions among them, exactly as defined. Each row that is looked at is a step.
#![tactic(auto)]

mod answer;
mod counted;
mod executing;
mod over_copies;
mod reads;
mod tables;
mod writing;

pub use answer::Answer;
pub use executing::{execute, execute_with};
