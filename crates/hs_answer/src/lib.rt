//! What a query answers over the rows of tables, in `specs/`: a list of rows or a fault, as a step for each layer of its
//! bound tree, one file a clause. Definitions, and the laws that tell which part's fault counts.
#![tactic(auto)]

pub mod laws;
