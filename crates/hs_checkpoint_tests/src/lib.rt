//! Checkpoints, creation and what recovery writes, over a host that is torn at each call in turn: tests alone. No crate of the
//! product stands on this one.
#![tactic(auto)]

#[cfg(test)]
mod tests;
