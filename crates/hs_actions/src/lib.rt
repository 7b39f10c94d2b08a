//! What the actions of foreign keys make of the rows that a statement changes: the list of rows that is worked from its
//! front, and the laws that it ends and that a foreign key acts on a child row once. Definitions and laws.
#![tactic(auto)]

pub mod laws;
mod reference;

pub use reference::{Acted, Reference};
