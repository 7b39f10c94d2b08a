//! Two-phase locks on whole tables: shared to read one, exclusive to write it, kept until the transaction ends.
#![tactic(auto)]

mod locks;

pub use locks::{Locks, push_tables, table_keeps, table_wants};
