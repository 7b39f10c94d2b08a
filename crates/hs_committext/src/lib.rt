//! The texts of commits: a commit has one text behind another one, beside the catalogue before it, which is written and read
//! back. Each change of a row and each definition has one line of it. What stands around these lines is `hs_log`'s; how the
//! condition of a CHECK is written is left to who calls.
#![tactic(auto)]

pub mod change_laws;
mod change_texts;
mod changes;
mod commits;
mod definition_printing;
mod definitions;
mod fault;
pub mod laws;
mod line_fault;
mod making;
mod printing;
mod row_changes;
mod rows;

pub use change_texts::{print_change, read_change};
pub use changes::read_changes;
pub use commits::{commit_text, read_commit};
pub use definition_printing::print_definition;
pub use definitions::read_definition;
pub use fault::TextFault;
pub use hs_tabletext::Conditions;
pub use hs_valuetext::print_value;
pub use line_fault::LineFault;
pub use printing::print_changes;
