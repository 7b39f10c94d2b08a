//! The rows of a table in memory, with indexes over some of its columns, and questions to them.
#![tactic(auto)]

mod behind;
mod copying;
mod entries;
mod indexes;
mod keyed_rows;
mod row_test;
mod scan;

pub use behind::row_behind;
pub use keyed_rows::KeyedRows;
pub use row_test::{Carries, CarriesToo, RowTest, has_key};
pub use scan::numbers_in;
