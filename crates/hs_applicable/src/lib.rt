//! Which changes may be made on a database as those of a commit: tests of changes of rows and of definitions, and laws of what
//! such changes leave.
#![tactic(auto)]

mod adding;
mod columns;
mod dropping;
mod keys;
pub mod laws;
mod limits;
mod making;
mod pairs;
mod proper;
mod rows;

pub use making::may_make;
