//! Groups of script slots, worked out by hand: tests alone. No crate of the product stands on this one.
#![tactic(auto)]

#[cfg(test)]
mod tests;
