//! What a list of changes makes of the tables' rows: definitions, and laws of them.
#![tactic(auto)]

pub mod laws;
