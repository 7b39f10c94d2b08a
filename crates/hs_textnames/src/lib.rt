//! What the texts of commits name: names without control characters. It has laws alone, on functions that do nothing.
#![tactic(auto)]

pub mod laws;
