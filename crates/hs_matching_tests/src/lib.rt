//! The pairs that joins look at, over small bags of rows, worked out by hand: tests alone.
#![tactic(auto)]

#[cfg(test)]
mod tests;
