//! The tables that a statement reads and those that it writes, as lists by ascending numbers over a catalogue. It has
//! laws alone, on functions that do nothing.
#![tactic(auto)]

pub mod laws;
