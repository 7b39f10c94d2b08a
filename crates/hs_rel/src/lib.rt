//! Bags of rows: joins, groups, distinct rows, unions, intersections, differences, order and cut.
#![tactic(auto)]

mod bags;
mod flags;
mod joins;
mod judge;
pub mod laws;
mod order;
pub mod owned;
mod sorting;
mod stop;

pub use bags::{distinct, except, intersect, union};
pub use flags::Flags;
pub use joins::{join, left_join};
pub use judge::Judge;
pub use order::{cut, first_group, group, in_order};
pub use stop::{EvalStop, StopKind};
