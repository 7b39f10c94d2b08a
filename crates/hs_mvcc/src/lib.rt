//! Claims on rows and keys in place of tables. Transactions at REPEATABLE READ and SERIALIZABLE read the state at their
//! start.
#![tactic(auto)]

mod mvcc;

pub use mvcc::Mvcc;
