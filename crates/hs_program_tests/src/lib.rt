//! Runs of the program over a database that counts its commits: tests alone.
#![tactic(auto)]

mod tally;
#[cfg(test)]
mod tests;

pub use tally::Tally;
