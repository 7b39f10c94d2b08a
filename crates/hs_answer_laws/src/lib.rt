//! What the answers of queries come to, as laws in a reader's words: each on a function that does nothing.
#![tactic(auto)]

pub mod bodies;
pub mod clauses;
pub mod frame;
