//! Copies of the rows of the tables that a query names, over which it has the same answer. Where the query is a SELECT of one
//! table alone with WHERE, and names that table nowhere else, only rows that WHERE may choose are copied of it: those that
//! have the values that WHERE asks of the columns of an index, or those for which it is TRUE.
#![tactic(auto)]

mod alone;
mod choosing;
mod copying;

pub use copying::copies_for;
