//! The canonical lines of ALTER TABLE: a column with its own constraints that is added, a constraint that is added, and one
//! that is dropped. Each is written and read back.
#![tactic(auto)]

mod alteration;
mod alterations;
mod altered;
mod lone;
mod printing;

pub use alteration::Alteration;
pub use altered::read_alter;
pub use printing::{print_add_column, print_add_constraint, print_drop_constraint};
