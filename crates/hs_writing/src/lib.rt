//! The statements that read and write rows, bound over a catalogue: SELECT and VALUES by themselves, INSERT, UPDATE, DELETE
//! and LOCK TABLE. Of the faults of a statement the least is answered, and else what it means. What binds expressions and
//! queries is handed in.
#![tactic(auto)]

mod delete;
mod insert;
mod lock;
mod parts;
mod query;
mod rows;
mod source;
mod targets;
mod update;
mod values;

pub use delete::bind_delete;
pub use insert::bind_insert;
pub use lock::bind_lock_table;
pub use query::bind_query;
pub use update::bind_update;
