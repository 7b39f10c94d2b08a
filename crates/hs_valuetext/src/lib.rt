//! The canonical text of values and types: each has one spelling, which is written and read back.
#![tactic(auto)]

mod escapes;
mod finding;
mod numbers;
mod quotes;
mod texts;
mod tokens;
mod types;
mod values;

pub use finding::behind;
pub use numbers::read_unsigned;
pub use quotes::{push_quoted, read_quoted};
pub use types::print_type;
pub use values::{print_value, read_value};
