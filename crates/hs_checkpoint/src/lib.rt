//! Checkpoints, and what is written at creation and recovery.
//!
//! A checkpoint writes the slot that isn't the current one anew with the next epoch, and then starts the backup and the log
//! with it. Its groups are given by a `Stand` of `hs_anew`. At each moment of it a crash leaves files that stand for the
//! point before or for the next one, and both have one meaning for whoever gives the groups (`specs/Checkpoint.antt`).
#![tactic(auto)]

mod settling;
mod turning;

pub use settling::{restart, settle, sync_all};
pub use turning::checkpoint;
