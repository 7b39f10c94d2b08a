//! The clauses of queries: what FROM, items, GROUP BY, keys of ORDER BY, VALUES, set operations and whole queries come to,
//! their parts being bound already. What binds the parts stands elsewhere.
#![tactic(auto)]

mod bound;
mod from;
mod groups;
mod items;
mod keys;
mod query;
mod select;
mod sets;
mod values;

pub use bound::{BoundBody, BoundElement, BoundFrom, BoundTable, KeysOver};
pub use from::{
    cross_join, derived_table, from_item, inner_join, left_join, named_table, note_doubled,
    shown_name,
};
pub use groups::groups_of;
pub use items::{one_item, show_every};
pub use keys::{key_meaning, other_key, value_key};
pub use query::{outputs_of_body, query_with};
pub use select::{SelectParts, select_body};
pub use sets::set_operation;
pub use values::{BoundRows, add_row, are_even, even_values, no_rows, uneven_values};
