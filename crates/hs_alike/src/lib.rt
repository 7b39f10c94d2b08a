//! Equality of bound conditions as a test of definitions: a function to truth values, which tells of two of them whether they are
//! equal as trees. It is exact for expressions without queries and aggregates, which the conditions of CHECK are.
#![tactic(auto)]

pub mod laws;
