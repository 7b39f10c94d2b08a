//! Whether a commit has a text in the log, as a test of definitions: a function to truth values, where the texts of commits are told by
//! a sentence. It stands on such a test of the conditions of CHECK.
#![tactic(auto)]

pub mod laws;
