//! The foreign keys that concern a table, each with all that its actions need, from the catalogue: those that reference
//! the table, and those that it has. They are found through the table, so that the others cost nothing.
#![tactic(auto)]

mod collected;
mod columns;
mod found;
mod one;

pub use collected::all_references;
pub use found::{references_of, references_on};
