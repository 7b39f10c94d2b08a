//! The tables that a statement reads and those that it writes, closed over foreign keys: which tables' rows its own change
//! may change by their actions, and which tables the constraints of these look at.
#![tactic(auto)]

mod alone;
mod changing;
mod neighbours;
mod table_set;
mod tables;
mod way;

pub use tables::{tables_read, tables_written};
pub use way::Way;
