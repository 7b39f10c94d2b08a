//! What the recogniser of statements answers, as a function of the classes of tokens. It has laws alone, on functions
//! that do nothing.
#![tactic(auto)]

pub mod laws;
