//! What is ahead of a run, as pieces: for each turn of the machine the lines that it tells, and the texts of the commits that it
//! makes. It is definitions and laws alone.
#![tactic(auto)]

pub mod laws;
