//! What ties SQL statements to the tables that they touch, as laws on functions that do nothing. They hold of every
//! reading of texts that tells exactly the tables to which foreign keys lead. Proofs of other crates cite them from
//! `Sql.antt` in `proofs/`.
#![tactic(auto)]

pub mod laws;
