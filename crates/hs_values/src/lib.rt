//! SQL values, rows of them, and the small lists that every other crate speaks of.
#![tactic(auto)]

mod assignment;
mod bytes;
mod chars;
mod compare;
mod comparisons;
mod decimal;
mod fault;
mod key;
pub mod laws;
mod name;
mod row;
mod row_list;
mod sql_type;
mod types;
mod value;
mod words;

pub use assignment::assign;
pub use bytes::Bytes;
pub use chars::Chars;
pub use compare::{cmp, order, order_rows, order_rows_by, sort_rows, sort_rows_by, whole};
pub use decimal::{MOST_DIGITS, checked_decimal, rescale, ten_to};
pub use fault::EvalFault;
pub use name::Name;
pub use row::Row;
pub use row_list::RowList;
pub use sql_type::{SqlType, fits, fits_row};
pub use types::Types;
pub use value::{Dec, Value, ValueRef};
pub use words::Words;
