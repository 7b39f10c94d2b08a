//! What settings and savepoints, definitions, new sessions, closed ones and waiters come to, where transactions lock
//! whole tables: laws alone, beside those of `hs_moves` and in their form. Each says what calls on what sessions hold
//! and on the store are to have made of the parts of an engine, so that it did what the machine of turns does. Proofs
//! of crates above cite the files of `proofs/`.
#![tactic(auto)]

pub mod laws;
