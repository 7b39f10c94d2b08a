//! Two-phase locks on whole tables for transactions that write. Read-only ones lock nothing, and read the state at
//! their start.
#![tactic(auto)]

mod mvlocks;

pub use mvlocks::MvLocks;
