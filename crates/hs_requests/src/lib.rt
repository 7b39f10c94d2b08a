//! What entries ask for, and what they mean over a catalogue, as functions of their texts. It has laws alone, on
//! functions that do nothing.
#![tactic(auto)]

pub mod laws;
