//! The texts that commits have in the log, one behind another, and whether the log has room for them. And a log that is read again:
//! its texts make the commits that wrote them, and so the database that these left.
#![tactic(auto)]

mod fault;
mod known;
mod lawful;
pub mod laws;
mod logbook;
mod replay;
pub mod replay_laws;
mod restored;
mod texts;

pub use fault::ReplayFault;
pub use logbook::Logbook;
pub use replay::Replay;
pub use restored::Restored;
