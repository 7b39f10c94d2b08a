//! The canonical lines of rows: each change of a row has one line, which is written and read back, byte by byte.
#![tactic(auto)]

mod lengths;
mod lines;
mod numbers;
mod parts;
mod printing;
mod rows;
mod tables;
mod verb;

pub use lengths::MOST_ROW_BYTES;
pub use lines::{read_kept_line, read_row_line};
pub use numbers::read_number;
pub use printing::{print_kept_line, print_row, print_row_line};
pub use tables::read_table;
