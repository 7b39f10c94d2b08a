//! Rows in memory from call to call, by the public calls of `hs_plainrows`: tests alone.
#![tactic(auto)]

#[cfg(test)]
mod tests;
