//! What the sessions hold, by table, row and key: who blocks a statement is found without a look at every claim.
#![tactic(auto)]

mod indexed_claims;
mod marks;
mod places;

pub use indexed_claims::IndexedClaims;
