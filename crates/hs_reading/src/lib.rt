//! SQL's reading of texts as a function: what entries ask for, what they mean over a catalogue, and which tables
//! their statements reach. It is such a reading as the laws of transactions ask.
//!
//! SQL meets these laws with any reading that binds what it reads, this one among them. So its runs are serial, or read
//! snapshots, as the model says, and leave valid databases behind each commit.
//!
//! It is plain: why an entry is no statement can't be taken for the end of a line that tells of a commit, nor why a
//! statement isn't bound. Each run over a valid database, whatever its model, is such a world as a store and the turns
//! ask for. It has laws alone, on functions that do nothing.
#![tactic(auto)]

pub mod laws;
pub mod plain;
pub mod promises;
pub mod proper;
pub mod runs;
