//! Commits that are made on a database, with their texts in its log: a commit is made where the log has room for it, and where it
//! may be made again when the log is read.
#![tactic(auto)]

mod columns;
mod settling;
mod texts;

pub use settling::{settle, settle_definition};
pub use texts::has_text;
