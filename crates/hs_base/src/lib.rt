//! The names that the storage and transaction crates share: numbers of rows, commits, tables, constraints,
//! pages and sessions, lists of them, the answer to want of memory and to a store that can't go on, and a
//! counter of steps. It stands on nothing.
#![tactic(auto)]

mod no_memory;
mod numbers;
mod row_names;
mod row_nos;
mod steps;
mod store_stop;
mod tables;
#[cfg(test)]
mod tests;

pub use no_memory::NoMemory;
pub use numbers::{CommitNo, ConstraintNo, PageNo, RowName, RowNo, SessionNo, TableNo};
pub use row_names::RowNames;
pub use row_nos::RowNos;
pub use steps::Steps;
pub use store_stop::StoreStop;
pub use tables::Tables;
