//! Where the expressions of a query are evaluated, and what is made of the outcomes that they have there: rows,
//! groups, lines with the rows that keys of ORDER BY see, and the values of subqueries. It evaluates no expression
//! and reads no table.
#![tactic(auto)]

mod groups;
mod keyed;
mod lines;
mod outcomes;
mod picking;
mod places;
mod subqueries;

pub use groups::KeptGroups;
pub use keyed::{behind_each, beside, flags_of, one_row, pairs_of, width_of};
pub use lines::Lines;
pub use outcomes::{all_gathered, all_values, gather_pairs, settled, true_rows};
pub use places::{Each, Over, Places};
pub use subqueries::{exists, in_answer, only_value};
