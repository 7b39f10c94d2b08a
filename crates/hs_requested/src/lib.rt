//! What the entries of the input ask for, read from their texts with the trees of their statements, and what these
//! mean over a catalogue, with the words of each refusal.
#![tactic(auto)]

mod reading;
mod request;
mod words;

pub use reading::{plan_statement, read_request};
pub use request::Request;
