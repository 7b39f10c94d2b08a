//! What a run over a log is to a database system of any language: what the texts of the log make, what is ahead of a run over
//! that, that the log has room for each commit of a run, and that what a run makes is made again. And what such a system is to a
//! run of the program: it is one that can be run. It is definitions and laws alone.
#![tactic(auto)]

mod governed;
pub mod laws;
pub mod room;
pub mod running;

pub use governed::Governed;
