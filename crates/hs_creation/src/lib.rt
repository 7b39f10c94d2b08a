//! How the files of a database are made.
//!
//! A database is born where the bytes 0 of its log and of its backup are both 1. Creation makes the log and the backup first,
//! neither of them born, then the page file and both slots, and brings each to the disk. Only then it writes the two births, that
//! of the backup and then that of the log. So a crash at any moment leaves files that stand for nothing as yet, or for the
//! database as it was created (`IsCreating` of `hs_slots`).
#![tactic(auto)]

mod births;
mod creating;
mod laying;

pub use creating::create;
