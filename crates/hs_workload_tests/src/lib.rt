//! Generated inputs and the lines that sum up runs over them, worked out by hand: tests alone.
#![tactic(auto)]

#[cfg(test)]
mod tests;
