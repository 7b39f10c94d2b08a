//! Names and their canonical texts, worked out by hand: tests alone.
#![tactic(auto)]

#[cfg(test)]
mod tests;
