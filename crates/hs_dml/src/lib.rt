//! The changes that INSERT, UPDATE and DELETE make, from the rows before them: their own rows, with defaults, conditions
//! and assignments, and those that the actions of foreign keys change.
#![tactic(auto)]

mod answers;
mod changes;
mod chosen;
mod deleting;
mod editing;
mod faults;
mod inserting;
mod plans;
mod updating;

pub use answers::Answers;
pub use deleting::of_delete;
pub use inserting::of_insert;
pub use plans::tentative;
pub use updating::of_update;
