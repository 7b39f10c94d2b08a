//! WHERE over the rows of one table where they lie: a condition without subqueries is evaluated on each row as it is
//! lent, and only rows that stay are copied.
#![tactic(auto)]

mod sieve;

pub use sieve::true_rows;
