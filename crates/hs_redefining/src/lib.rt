//! What a bound definition does to a database: whether rows or foreign keys stand against it, and for what reason it
//! is refused then; and what it makes of the rows. All is exactly as SQL's language says.
#![tactic(auto)]

mod copying;
mod effect;
mod indexing;
mod judging;
mod keys;
mod longer;
mod referencing;
mod remaking;
mod tables;
mod violating;
mod words;

pub use indexing::index_added;
pub use judging::judge;
pub use remaking::redefine;
