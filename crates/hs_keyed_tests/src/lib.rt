//! Rows with indexes beside rows without, over many changes: tests alone.
#![tactic(auto)]

#[cfg(test)]
mod tests;
