//! The conditions of CHECKs over rows, exactly as the validity of a database asks: a row passes for which its
//! condition is TRUE or NULL, and no fault.
#![tactic(auto)]

mod conditions;
mod verdict;

pub use conditions::Conditions;
