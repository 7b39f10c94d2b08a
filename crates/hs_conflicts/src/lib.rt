//! The claims of commits, for statements that may conflict with those since their transaction's start. Proofs of crates above cite
//! the files of `proofs/`.
#![tactic(auto)]

pub mod laws;
mod past;

pub use past::Past;
