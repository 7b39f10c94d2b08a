//! SQL's dates and timestamps: their texts, their sums with days and months, and their parts.
#![tactic(auto)]

mod calendar;
mod days;
pub mod laws;
mod moves;
mod parts;
mod printing;
mod reading;

pub use days::{day_and_time, moment_at};
pub use moves::{plus_days, plus_months};
pub use parts::{Part, extract};
pub use printing::{print_date, print_stamp};
pub use reading::{read_date, read_stamp};
