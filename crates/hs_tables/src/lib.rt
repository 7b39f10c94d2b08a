//! CREATE TABLE, and ALTER TABLE with ADD COLUMN and ADD of a constraint, bound over a catalogue. What binds the expressions of
//! CHECKs is given. Of all faults the least is answered, and else the definition that is meant.
#![tactic(auto)]

mod additions;
mod alter;
mod create;
mod elements;
mod rules;
mod site;
mod sought;

pub use alter::bind_alter_table;
pub use create::bind_create_table;
