//! The store of the present, and stores as of earlier commits.
#![tactic(auto)]

mod commits;
mod presents;
mod seated;
mod snapshot;
mod stores;

pub use snapshot::Snapshot;
pub use stores::Stores;
