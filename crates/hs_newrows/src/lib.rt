//! The rows that a writing statement makes of values: those of VALUES, those of a query, and rows with what SET assigns.
#![tactic(auto)]

mod default_values;
mod evaluates;
mod made;
mod storing;
mod tuples;

pub use default_values::{default_of, defaults};
pub use evaluates::Evaluates;
pub use made::{inserted, taken_in, updated};
pub use storing::{all_stored, stored};
pub use tuples::{assigned_values, value_for, values_for};
