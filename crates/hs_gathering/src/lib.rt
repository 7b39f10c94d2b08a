//! What a turn of a run tells and makes is gathered: whole lines, and the commits that stand in the log before they are told. All
//! of a turn is gathered, or nothing of it.
#![tactic(auto)]

mod gathering;

pub use gathering::{gather, print, print_words};
