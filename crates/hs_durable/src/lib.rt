//! What the files of a database stand for, and that a crash at any moment leaves files that stand for it.
//!
//! A `Point` (`specs/Durable.antt`) is all that files stand for, as lists of texts: what texts mean is said by the crates
//! that write and read them. The argument about crashes is made here, once for all crates above: a call that changes no
//! file, a sync and a log that is added to leave files that stand for the point before, or for that with all of the new
//! commits. Today it speaks of the log alone.
#![tactic(auto)]

mod laws;

pub use laws::{
    born_logs_are_served, commits_are_none_or_all, nothing_changes, served_files_survive,
};
