//! What the five files of a database stand for, and that a crash at any moment leaves files that stand for it.
//!
//! A database has two slots, of which the open one with the greater epoch is the current one; a log and a backup, which count
//! where their epoch is that of the current slot; and pages. A `Point` (`specs/Points.antt`) is all that five files stand
//! for, as lists of payloads: what payloads mean is said by the crates that write and read them. Files of which log and backup
//! aren't both born stand for no point as yet.
//!
//! The argument about crashes is made here, for each kind of call once: what a point asks of the files it asks of each file
//! alone, so a call that leaves of its one file what the point asks changes nothing; a slot that is written anew stands
//! for the point before, or for the one that follows; and a log that is added to for the point before, or for that with all
//! of the new commits.
#![tactic(auto)]

mod files;
mod laws;

pub use files::Files;
pub use laws::{
    checkpoints_count_by_the_slot, commits_are_none_or_all, files_stand_for_one_point,
    inert_calls_change_nothing, served_files_survive,
};
