//! The stages of a query without its expressions: from what these give of each row to the rows that a clause leaves. Each
//! call gives exactly what `hs_answer` defines.
#![tactic(auto)]

mod gathered;
mod given;
mod groups;
pub mod laws;
mod order;
mod rows;
mod sides;

pub use gathered::Gathered;
pub use given::given_row;
pub use groups::Groups;
pub use order::{limited, ordered, without_keys};
pub use rows::{behind, product};
pub use sides::{combined, side_rows};
