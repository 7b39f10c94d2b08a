//! The canonical text of a table's columns in a definition: each has one spelling, which is written and read back.
#![tactic(auto)]

mod columns;
mod defaults;
mod numbers;
mod printing;
mod types;

pub use columns::{read_column, read_columns, read_last_column};
pub use printing::{print_column, print_columns};
pub use types::read_type;
