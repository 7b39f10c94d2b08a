//! SQL as the database of a run. Its commits are made again from the texts of a log, and entries of sessions take turns over it
//! under LOCKS, MVLOCKS or MVCC. Their statements come to exactly what SQL's language says, and a run of SQL over a log tells the truth.
#![tactic(auto)]

mod committing;
mod counting;
mod defining;
mod engine;
mod evaluating;
pub mod laws;
mod refusing;
mod seating;
mod sql;
mod store;

pub use engine::SqlEngine;
pub use sql::Sql;
pub use store::SqlStore;
