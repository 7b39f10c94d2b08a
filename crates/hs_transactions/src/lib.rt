//! An engine of the models LOCKS, MVLOCKS and MVCC: it attempts the entries of sessions over any store, keeps their settings,
//! transactions, claims, waits and snapshots, and makes commits. It does what the machine of turns does with each entry.
#![tactic(auto)]

mod conflicts;
mod controls;
mod definitions;
mod ending;
mod engine;
mod holding_up;
mod readers;
mod refusing;
mod seating;
mod settling;
mod statements;
mod telling;
mod transactions;

pub use transactions::Transactions;
