//! Which constraint changed rows violate first, told from these rows and from those that have their keys.
#![tactic(auto)]

mod rows;
mod violated;

pub use hs_sentences::Violation;
pub use rows::ChangedRows;
pub use violated::first_violated;
