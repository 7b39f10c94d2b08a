//! The top call: everything that the program does, over any host.
#![tactic(auto)]

mod program;

pub use hs_program::{Damage, Status};
pub use program::run;
