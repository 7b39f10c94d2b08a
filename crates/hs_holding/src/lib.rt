//! What the sessions of a run hold: their settings, their open transactions with changes and savepoints, the claims of those, and
//! who waits for whom. It is tied to the lists in which a machine has all this.
#![tactic(auto)]

mod holding;
mod seat;
mod starts;
mod waiting;

pub use holding::Holding;
pub use seat::{Own, Seat};
