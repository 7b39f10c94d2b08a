//! The log of a database: the texts of its commits, one after another in a file. What is in that file, how a text is added
//! so that a crash leaves all of it or nothing, and how the log is made and read, is known here and in `hs_gate` alone. So
//! is what a text says beside the lines of its changes: whose commit it is, and where it ends (`specs/CommitText.antt`).
#![tactic(auto)]

mod commit_text;
mod laws;
mod log;
mod log_fault;
mod log_reader;

pub use commit_text::{begin_commit, end_commit, split_commit};
pub use hs_gate::Batch;
pub use laws::{commit_texts_are_split, split_texts_are_made};
pub use log::{Log, OpenedLog};
pub use log_fault::LogFault;
pub use log_reader::LogReader;
