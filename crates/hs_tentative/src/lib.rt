//! The changes that a writing statement names: its own rows, from values, defaults and conditions, and those that the
//! actions of foreign keys change. Definitions and laws.
#![tactic(auto)]

pub mod laws;
