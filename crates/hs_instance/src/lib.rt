//! A database in memory: its catalogue, the foreign keys of this, its rows with the changes of an open transaction on them, and
//! its settings. Commits and definitions make of it what they make of the database. Commits of a log are made again on it as far
//! as they may be: each change is looked at just before it is made.
#![tactic(auto)]

mod committing;
mod copying;
mod defining;
mod instance;
pub mod laws;
mod making;
mod naming;
mod restoring;
mod settings;
mod settling;
mod staying;
mod testing;

pub use committing::{commit_lawful, commit_numbered};
pub use instance::Instance;
pub use restoring::Restoring;
pub use settings::kind_of;
pub use testing::may_be_made;
