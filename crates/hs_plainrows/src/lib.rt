//! The rows of tables in memory, by tables and numbers: the plain body of what keeps rows, beside which a store stands
//! that reads a file.
#![tactic(auto)]

mod held;
mod plain_rows;

pub use plain_rows::PlainRows;
