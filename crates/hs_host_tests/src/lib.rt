//! Hosts, in memory and over real files: tests alone.
#![tactic(auto)]

#[cfg(test)]
mod tests;
