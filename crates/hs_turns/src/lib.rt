//! What transactions see of each other, by definition. A database: its catalogue, the rows of its tables, the count of its changes,
//! its model of transactions and its default level; and what changes and commits make of it. Histories of transactions, as the
//! literature on serializability has them: the statements of each with what they answered and touched, the commits, and events
//! that lead from one history to the next; and the laws of the three models over every list of events. And the machine that a run
//! is: sessions, their transactions and waits, and one turn after another, over any language of entries; and laws of its runs.
//! It is definitions and laws alone.
#![tactic(auto)]

pub mod database_laws;
pub mod laws;
pub mod promises;
