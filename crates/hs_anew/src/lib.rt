//! Gated files that are written anew: the slot of a checkpoint, and a log and a backup that are started.
//!
//! A file is written anew behind its closed header gate: an open gate is closed and synced first; then the epoch, the groups
//! and a closed gate are written, the file is cut behind them and synced; then its gate is opened and synced. A gate that isn't
//! open is never written closed. The groups are given piece by piece (`Stand`), so that no text of all of them is ever held.
//!
//! At each moment a crash leaves a file that isn't open, or was and still has its epoch, or has all that is new
//! (`IsAnew` of `hs_slots`). It never has fewer than two bytes, and it is born where it was.
#![tactic(auto)]

mod closing;
mod rewriting;
mod staging;
mod stand;
mod writing;

pub use rewriting::{rewrite, start};
pub use stand::Stand;
pub use writing::write_synced;
