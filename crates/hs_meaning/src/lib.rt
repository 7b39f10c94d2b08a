//! What expressions and queries mean over a catalogue: for each part its faults with their places, and the bound tree
//! with the kinds of its values, which is known where the part and those inside it break no rule. Definitions, and the
//! laws that tell what they come to.
//!
//! And what surrounds a part of a statement: the FROMs that it sees, the columns of them that may stand there, and whether
//! aggregates and queries may; what a column's name means there, its faults being noted.
#![tactic(auto)]

mod around;
mod columns;
mod notes;
mod placed;

pub use around::{Groups, Surroundings};
pub use columns::{column, column_at};
pub use notes::{note_ambiguous, note_missing, note_types};
pub use placed::{PlacedColumn, Shown};
