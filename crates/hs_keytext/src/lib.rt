//! The canonical text of keys: the columns of a key or an index by their names, and foreign keys with their actions. Each
//! has one spelling, which is written and read back.
#![tactic(auto)]

mod actions;
mod distinct;
mod foreign_keys;
mod owner;
mod places;
mod printing;

pub use foreign_keys::read_foreign_key;
pub use owner::Owner;
pub use places::{read_place, read_places};
pub use printing::{print_foreign_key, print_places};
