//! The sessions of a run: their names and settings, the changes of their open transactions, and their savepoints.
#![tactic(auto)]

mod commit;
mod control;
mod modes;
mod savepoints;
mod session;
mod sessions;

pub use commit::Commit;
pub use control::{Control, ControlReply};
pub use hs_plan::Modes as NewModes;
pub use modes::{Characteristics, Modes, level_of};
pub use savepoints::{Savepoint, Savepoints};
pub use session::{Session, Transaction};
pub use sessions::{MOST_SESSIONS, Sessions};
