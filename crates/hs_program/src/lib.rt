//! A run of the program over any host and any database: the command line, the files of the database, the log whose commits are
//! made again, turns, and how the run ends.
#![tactic(auto)]

mod command;
mod damage;
mod engine;
mod fault;
mod laws;
mod opening;
mod program;
mod status;

pub use damage::Damage;
pub use engine::Engine;
pub use laws::damage_is_that_of_the_first_group;
pub use program::run_over;
pub use status::Status;
