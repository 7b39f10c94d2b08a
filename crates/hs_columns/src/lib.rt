//! The output columns of queries with the places of their items: their kinds, the columns of two queries or of two rows
//! one above the other, and which part of an item is a column and which a tree.
#![tactic(auto)]

mod bound;
mod kinds;
mod known;
mod pairing;
mod shown;

pub use bound::BoundQuery;
pub use kinds::{forget_kinds, into_outputs, kinds_of, outputs_of};
pub use known::with_part;
pub use pairing::{note_clashes, note_uneven, pair};
pub use shown::{ShownParts, part_shown};
