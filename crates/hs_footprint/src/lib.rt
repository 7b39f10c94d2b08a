//! What a bound data statement touches: the tables that it reads and writes, the committed rows that it changes, the unique
//! keys that it puts or removes, and the parent keys that its put rows name. Claims are made of it.
#![tactic(auto)]

mod keys;
mod parents;
mod rows;
mod whole;

pub use whole::footprint;
