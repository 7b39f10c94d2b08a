//! What the constraints of a catalogue say of the tables' rows, and which of them is the first that doesn't hold:
//! definitions, and the laws by which the changed rows alone tell it.
#![tactic(auto)]

pub mod laws;
mod violation;

pub use violation::Violation;
