//! What a run writes, logs and answers, over hosts in memory: tests, and what a run over a host that never fails comes to.
#![tactic(auto)]

mod never;
#[cfg(test)]
mod tests;

pub use never::run_where_nothing_fails;
