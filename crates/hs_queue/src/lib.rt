//! Entries of sessions that wait for others, and entries that are queued behind those.
#![tactic(auto)]

mod backlogs;
mod entry;
mod lanes;
mod waiters;

pub use backlogs::Backlogs;
pub use entry::Entry;
pub use waiters::Waiters;
