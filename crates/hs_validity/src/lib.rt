//! What constraints ask of the rows of tables, and laws of SQL as the language of transactions that rest on it: what
//! commits leave valid, and what footprints tell of it.
#![tactic(auto)]

pub mod laws;
