//! Copies of the rows of tables: of the tables that a query names, each is read once, and the query has the same answer
//! over the copies as over what they were made of. Of one table other rows may be held in place of its own.
#![tactic(auto)]

mod copying;
pub mod laws;
mod table_copies;

pub use copying::{copies_beside, copies_of};
pub use table_copies::TableCopies;
