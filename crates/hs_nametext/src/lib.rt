//! The canonical text of names: each has one spelling, which is written and read back.
#![tactic(auto)]

mod bytes;
mod names;

pub use names::{is_plain, print_name, read_name};
