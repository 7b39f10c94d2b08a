//! What turns tell, as values: the names of sessions, the words that items are told, and the texts of lines.
#![tactic(auto)]

mod names;
mod printing;
mod told;
mod words;

pub use names::{MOST_SESSIONS, Names};
pub use printing::{print_closed, print_opened};
pub use told::Told;
pub use words::Words;
