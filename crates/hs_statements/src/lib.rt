//! What statements mean over a catalogue, as a function, with the laws of that meaning; and every statement bound over a catalogue,
//! each by its kind. What binds expressions and queries is handed in.
#![tactic(auto)]

mod bound;
pub mod laws;
mod plans;
mod session;

pub use bound::bind_statement;
