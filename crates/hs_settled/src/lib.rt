//! What the parts of a query come to, once the outcomes of their expressions are at hand: each call gives exactly what
//! `hs_answer` defines, or want of memory. It evaluates no expression and reads no table.
#![tactic(auto)]

mod bodies;
mod columns;
mod fault;
mod joins;
mod order;
mod selects;
mod spots;
mod values;

pub use bodies::combined;
pub use columns::{add_column, all_rows, no_columns, output_column};
pub use joins::{joined, take_pairs};
pub use order::sorted;
pub use selects::{grouped, kept, lines, true_rows};
pub use spots::Spots;
pub use values::given;
