//! Where aggregates stand in trees as they are written, and so which SELECT groups its rows.
#![tactic(auto)]

mod aggregates;

pub use aggregates::{has_aggregate, is_grouped};
