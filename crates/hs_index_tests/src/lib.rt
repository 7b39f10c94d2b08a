//! What an index answers after its rows were put and taken, worked out by hand: tests alone.
#![tactic(auto)]

#[cfg(test)]
mod tests;
