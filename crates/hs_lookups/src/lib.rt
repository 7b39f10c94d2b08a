//! What a condition asks of columns: the values that some have in each row for which it may be TRUE, and two columns that are
//! equal there. With these, rows that a condition can't choose needn't be looked at.
#![tactic(auto)]

mod conjuncts;
mod equalities;
mod negative;
mod operators;
mod pairing;
mod sure;

pub use equalities::Equalities;
pub use pairing::equal_columns;
