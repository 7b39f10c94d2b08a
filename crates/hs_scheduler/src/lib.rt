//! Turns over the entries of sessions, with any engine: entries are attempted, wait and are attempted again, or are queued behind
//! one of their session that waits. Each turn does what the machine of turns does, and is gathered whole or not at all.
#![tactic(auto)]

mod attempting;
mod closing;
mod scheduler;
mod stepping;
mod taking;
mod turns;

pub use scheduler::Scheduler;
