//! Rows of tables where they are kept: a trait for whatever keeps them, and calls that go through a table's rows in
//! the order of their numbers. A row is lent where it lies, and what a caller doesn't keep isn't copied.
#![tactic(auto)]

mod copies;
mod rows;
mod scanning;
mod takes;

pub use copies::{all_rows, copied, numbered_rows};
pub use rows::Rows;
pub use scanning::scan;
pub use takes::Takes;
