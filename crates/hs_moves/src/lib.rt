//! What each kind of entry comes to, under each model of transactions, on what an engine keeps: laws alone. An engine has a store,
//! what the sessions hold, the session whose changes are on a store's database, the number of commits, and what transactions that
//! read their start need. Each law says which parts it is to have behind an entry, and what it is to tell, so that it did what the
//! machine of turns does.
//! Proofs of crates above cite the files of `proofs/`.
#![tactic(auto)]

pub mod laws;
