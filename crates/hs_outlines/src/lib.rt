//! What a definition of a table comes to beside the rules of its constraints: its columns with their defaults, the
//! names of its constraints, its keys, what a foreign key references, and its limits. Each fault is noted at its place.
#![tactic(auto)]

mod columns;
mod counters;
mod element;
mod foreign;
mod keys;
mod limits;
mod naming;
mod notes;
mod outline;
mod written;

pub use columns::AllColumns;
pub use element::Elements;
pub use foreign::foreign_key;
pub use keys::{add_keys, keys_of};
pub use limits::note_beyond;
pub use naming::{name_all, primary_name};
pub use notes::{
    note_exists, note_no_column, note_no_table, note_repeated, note_unknown, note_where_taken,
};
pub use outline::{Key, Outline, place_in, places_in};
pub use written::{Written, written_in};
