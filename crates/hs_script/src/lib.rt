//! The texts of a script slot: its groups say all of a database but the rows of its CACHED tables, and are written and read
//! back.
#![tactic(auto)]

mod definition_printing;
mod definition_reading;
mod head;
mod head_printing;
mod head_reading;
pub mod laws;
mod lines;
mod numbered;
mod row_printing;
mod row_reading;
mod rules;
mod shelf;
mod stored_row;

pub use definition_printing::print_numbered;
pub use definition_reading::{fits, read_numbered};
pub use head::{Head, MOST_CHANGES, MOST_PAGES};
pub use head_printing::print_head;
pub use head_reading::read_head;
pub use hs_committext::Conditions;
pub use row_printing::{print_rows, print_stored};
pub use row_reading::read_rows;
pub use rules::Rules;
pub use shelf::Shelf;
pub use stored_row::StoredRow;
