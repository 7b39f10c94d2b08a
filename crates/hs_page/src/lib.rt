//! Pages of rows: a page of slots, each free or with the bytes of a row, and the rows behind them.
#![tactic(auto)]

mod least;
mod numbers;
mod pack;
mod page;
mod place;
mod put;
mod read;
mod row;
mod take;

pub use page::Page;
pub use row::PageRow;

/// The bytes of a page.
pub const PAGE_BYTES: usize = 4096;
