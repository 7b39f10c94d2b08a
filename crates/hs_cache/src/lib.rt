//! A bounded number of pages held in memory, in the order of their use.
#![tactic(auto)]

mod frames;
mod held_page;
mod spare_pages;

pub use frames::{Frame, Frames};
