//! What sessions hold is tied here to the lists in which a machine has it: open transactions in the order in which they began, claims
//! by what their statements touched, and waits as a test of two sessions. Proofs of crates above cite the files of `proofs/`.
#![tactic(auto)]

pub mod laws;
