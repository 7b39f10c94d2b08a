//! Which commits of rows are known to have a text that is read as they again, by a test of their changes that writes and reads
//! none.
#![tactic(auto)]

mod fitting;
mod found;
mod known;

pub use known::is_known;
