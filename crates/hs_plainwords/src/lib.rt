//! That a run tells of no commit which isn't made: what it tells of statements, rows, refusals and names can't be
//! taken for the end of a line that tells of one. And that each entry has one line with `ok` or `refused`, as rows can't
//! be taken for replies. It has laws alone, on functions that do nothing.
#![tactic(auto)]

pub mod laws;
