//! The conditions of CHECK in a log, both ways: written in their one text, and read back by the grammar and bound over the columns of their
//! table. A condition has a text where what is written of it is read as this very condition.
#![tactic(auto)]

mod binding;
mod check_texts;
mod checks;
mod reading;
mod tree;

pub use binding::bind_check;
pub use checks::Checks;
