//! A run from its first line to its last, over whatever takes turns: items are read and taken, what turns tell is gathered,
//! commits are logged many at a time, and nothing is told of a commit before it stands in the log.
#![tactic(auto)]

mod flush;
mod gathered;
mod lawful;
mod outgoing;
mod output;
mod running;
mod stop;
mod taking;
mod turns;

pub use gathered::Gathered;
pub use output::Output;
pub use stop::Stop;
pub use taking::take_turns;
pub use turns::Turns;
