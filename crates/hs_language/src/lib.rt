//! SQL as the language of transactions: what data statements and definitions come to over a database, what they touch,
//! and when a database is valid. And laws of definitions: what `is_sound` tests of a catalogue is what a catalogue means by
//! whole, and a definition that is bound and isn't refused leaves a valid database. It is definitions and laws alone.
#![tactic(auto)]

pub mod laws;
