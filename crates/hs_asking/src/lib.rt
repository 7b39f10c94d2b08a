//! What the entries of sessions ask for, what their statements mean over a catalogue, and which of these are refused at
//! once.
#![tactic(auto)]

mod admitting;
mod asking;
mod meaning;

pub use admitting::admitted;
pub use asking::asked;
pub use meaning::meant;
