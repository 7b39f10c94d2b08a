//! The rows of tables as they are before a statement: copies with their numbers, out of whatever keeps the rows; and the
//! tables whose rows the actions of foreign keys look at.
#![tactic(auto)]

mod families;
mod held_rows;
mod looking;
mod reading;

pub use families::family;
pub use held_rows::HeldRows;
pub use reading::rows_before;
