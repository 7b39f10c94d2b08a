//! What binds the expressions and the queries inside a statement, as a trait: what binds statements stands on it, and not
//! on how trees are walked.
#![tactic(auto)]

mod binder;

pub use binder::Binder;
