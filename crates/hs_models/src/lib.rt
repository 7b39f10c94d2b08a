//! What statements want, keep and read under each model of transactions, by its kind.
#![tactic(auto)]

mod models;

pub use models::{keeps, reads_start, wants};
