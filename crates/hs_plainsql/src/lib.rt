//! That what SQL tells of rows, constraints and names can't be taken for the end of a line that tells of a commit.
//! It has laws alone, on functions that do nothing.
#![tactic(auto)]

pub mod laws;
