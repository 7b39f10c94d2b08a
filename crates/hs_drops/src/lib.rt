//! The definitions that need no text of a table, bound over a catalogue: DROP TABLE, DROP INDEX, ALTER TABLE with DROP
//! CONSTRAINT, and CREATE INDEX. Of their faults the least is answered, and else the definition that they mean.
#![tactic(auto)]

mod answers;
mod drops;
mod index;
mod named;
mod taken;

pub use answers::answer;
pub use drops::{bind_drop_constraint, bind_drop_index, bind_drop_table, bind_no_table};
pub use index::bind_create_index;
pub use named::{has_constraint, has_index, is_index};
pub use taken::{is_owned, is_table};
