//! Runs of a small machine over hosts in memory: tests alone.
#![tactic(auto)]

mod silent;
#[cfg(test)]
mod tests;

pub use silent::{Silent, silent_pieces_are_true};
