//! Gated files and the log over hosts in memory: tests alone. No crate of the product stands on this one.
#![tactic(auto)]

#[cfg(test)]
mod tests;
