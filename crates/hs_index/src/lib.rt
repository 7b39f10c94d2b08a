//! Rows by key: an index of a table, and the keys that rows have in some of their columns.
#![tactic(auto)]

mod index;
mod key;
pub mod laws;
mod row_set;

pub use index::Index;
pub use key::{has_gap, has_null, key_in};
