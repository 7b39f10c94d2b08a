//! What the elements of a table's definition mean one by one: the types and defaults of columns, names that are
//! repeated or unknown, and the names of constraints that have none.
#![tactic(auto)]

mod columns;
mod defaults;
mod faults;
mod names;

pub use columns::Columns;
pub use defaults::default_value;
pub use faults::Faults;
pub use names::{ConstraintKind, NameSet, free_name, is_taken};
