//! Gated files: groups of bytes that are added whole or not at all.
//!
//! A gated file is a birth byte, a header gate, an epoch of 8 bytes and groups. A group is a gate, the length
//! of its payload in 8 bytes, and the payload. Numbers are big-endian. A gate is open where it is the byte 1.
//! What the groups of a file are is a function of its bytes (`specs/Groups.antt`): they run from place 10 up
//! to the first gate that isn't open, and what follows isn't looked at.
//!
//! A group is added by writing it behind its closed gate, and then opening the gate, with a sync after each.
//! So a crash while it is added leaves the groups as they were, or these and the new one (`specs/Crash.antt`).
//! While a file is made anew, nothing is promised of what a crash leaves of it.
#![tactic(auto)]

mod batch;
mod found;
mod gate_fault;
mod gated;
mod group_reader;
mod laws;
mod part;
mod read;
mod reading;
mod start;
mod window;
mod writing;

pub use batch::Batch;
pub use gate_fault::GateFault;
pub use gated::Gated;
pub use group_reader::GroupReader;
pub use laws::{groups_are_added_one_by_one, groups_are_spelled, rewritten_files_are_read};
pub use part::Part;
pub use start::rewrite;
